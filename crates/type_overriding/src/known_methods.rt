// Methods as members of one type, of which what was found out is remembered: the signature of each, and whether the type is below a type that declares some.
ghost use Rattle.std.specs.Prelude.{◌≡◌, [], None, IfOk, IfSome};
ghost use Rattle.std.specs.Option.{option_to_list};
ghost use Rattle.type_layers.specs.Layers.{declared_mirror};
ghost use Rattle.type_numbers.specs.Numbers as numbers;
ghost use Rattle.type_numbers.specs.Numbers.{AreKnown, OptionStands, Stands};
ghost use Rattle.type_relations.specs.Elements as elements;
ghost use Rattle.type_overriding.specs.ByNumbers.{signature_of};
ghost use Rattle.type_overriding.specs.Methods.{Grows, IsBelow, IsFor, IsSignature, as_member, member_in, seen_of};
ghost use Rattle.type_overriding.specs.Methods as methods;
ghost use Rattle.type_overriding.specs.Overrides as overriding;

use crate::by_elements::is_below_known;
use crate::effort::{steps_of, steps_of_names, steps_of_search};
use crate::overriding::{may_override, signature_of};
use apt_base::{ElementRef, List, NoMemory};
use call_effort::Effort;
use element_table::Table;
use std::alloc::Global;
use std::collections::BTreeMap;
use std::marker::Model;
use std::mem;
use type_levels::Answer;
use type_members::{member_with, number_with};
use type_memory::KnownTypes;
use type_numbers::{Node, Types};
use type_relations::around_of;
use type_resolve::Resolver;

/// Methods as members of one type over one table. Contracts see the table, the type and the types in the order of their numbers.
#[derive(Drop)]
pub(crate) struct KnownMethods<'a, 'w> {
    alloc: Global,
    resolver: Resolver<'a>,
    within: &'w ElementRef,
    types: Types,
    known: KnownTypes<'a>,
    signatures: BTreeMap<usize, Option<usize>>,
    below: BTreeMap<usize, Answer>,
}

impl<'a, 'w> Model for KnownMethods<'a, 'w> {
    ghost use Rattle.type_overriding.specs.Methods.{AreRight, Seen, seen_code, seen_of};

    ghost Value = { Seen };

    ghost coded = { seen_code };

    ghost view = { λ a. seen_of a.resolver a.within.now a.types };

    ghost invariant = { λ a. AreRight (seen_of a.resolver a.within.now a.types) a.known a.signatures a.below };
}

// A number for an element, the same one each time.
#[tactic(auto, unfolding(type_layers::specs::Layers::mirror_of))]
fn number_for(alloc: Global, types: &mut Types, at: &ElementRef) -> Result<usize, NoMemory>
    ensures stands { IfOk result (λ n. Stands types.new n (declared_mirror at.now None [])) }
    ensures grows { numbers.Grows types.old types.new }
{
    let element = at.copy(alloc)?;
    types.intern(Node::Declared(element, None, List::new(alloc)))
}

// The number of the type of a method as a member of a type.
#[tactic(auto, using(crate::proofs::MethodSteps::resolving))]
fn signature_in(
    alloc: Global,
    resolver: &mut Resolver<'_>,
    types: &mut Types,
    within: &ElementRef,
    at: &ElementRef,
) -> Result<Option<usize>, NoMemory>
    ensures stands { IfOk result (λ n. OptionStands types.new n (member_in resolver.old within.now at.now)) }
    ensures grows { numbers.Grows types.old types.new }
    ensures kept { resolver.new ≡ resolver.old }
{
    let container = number_with(alloc, resolver, types, within)?;
    let signature = member_with(alloc, resolver, types, container, at)?;
    Ok(signature)
}

impl<'a, 'w> KnownMethods<'a, 'w> {
    /// Nothing is known yet. It takes no memory.
    pub fn new(alloc: Global, table: &'a Table, within: &'w ElementRef) -> KnownMethods<'a, 'w>
        ensures { result ≡ seen_of table.now within.now [] }
    {
        KnownMethods {
            alloc,
            resolver: Resolver::new(alloc, table),
            within,
            types: Types::new(alloc),
            known: KnownTypes::new(alloc, table),
            signatures: BTreeMap::new(alloc),
            below: BTreeMap::new(alloc),
        }
    }

    /// The table.
    pub fn table(&self) -> &'a Table
        ensures { result.now ≡ self.now.table }
    {
        self.resolver.table()
    }

    /// Takes over what was looked up, and gives what it had itself.
    pub fn exchange(&mut self, resolver: Resolver<'a>) -> Resolver<'a>
        requires { resolver ≡ self.old.table }
        ensures given { result ≡ self.old.table }
        ensures kept { self.new ≡ self.old }
    {
        mem::replace(&mut self.resolver, resolver)
    }

    // The number under which what is known of an element is remembered.
    fn number(&mut self, at: &ElementRef) -> Result<usize, NoMemory>
        ensures stands { IfOk result (λ n. IsFor self.new n at.now) }
        ensures grows { Grows self.old self.new }
    {
        number_for(self.alloc, &mut self.types, at)
    }

    // ---- signatures

    // The one that is remembered under a number.
    fn recalled_signature(&self, number: usize) -> Option<Option<usize>>
        ensures { IfSome result (λ found. IsSignature self.now number found) }
    {
        match self.signatures.get(&number) {
            None => None,
            Some(found) => Some(*found),
        }
    }

    fn remember_signature(&mut self, number: usize, found: Option<usize>) -> Result<(), NoMemory>
        requires { IsSignature self.old number found }
        ensures { self.new ≡ self.old }
    {
        self.signatures.insert(number, found)?;
        Ok(())
    }

    fn resolve(&mut self, at: &ElementRef) -> Result<Option<usize>, NoMemory>
        ensures stands { IfOk result (λ n. OptionStands self.new.types n (as_member self.old at.now)) }
        ensures grows { Grows self.old self.new }
    {
        signature_in(
            self.alloc,
            &mut self.resolver,
            &mut self.types,
            self.within,
            at,
        )
    }

    // What it took to look up the names in a method.
    fn steps_of_names(&self, signature: Option<usize>) -> usize
        requires { AreKnown self.now.types (option_to_list signature) }
    {
        match signature {
            None => 0,
            Some(number) => steps_of_names(&self.types, number),
        }
    }

    // Resolves the one of the method that a number stands for, and remembers it.
    #[tactic(auto, using(crate::proofs::MethodSteps::knowing))]
    fn found_signature(
        &mut self,
        number: usize,
        at: &ElementRef,
        effort: &mut Effort,
    ) -> Result<Option<usize>, NoMemory>
        requires { IsFor self.old number at.now }
        ensures stands { IfOk result (λ n. OptionStands self.new.types n (as_member self.old at.now)) }
        ensures grows { Grows self.old self.new }
    {
        let found = self.resolve(at)?;
        effort.take(self.steps_of_names(found))?;
        self.remember_signature(number, found)?;
        Ok(found)
    }

    // The number of the type of a method as a member: it is resolved once.
    #[tactic(auto, using(crate::proofs::MethodSteps::knowing))]
    fn signature(&mut self, at: &ElementRef, effort: &mut Effort) -> Result<Option<usize>, NoMemory>
        ensures stands { IfOk result (λ n. OptionStands self.new.types n (as_member self.old at.now)) }
        ensures grows { Grows self.old self.new }
    {
        let number = self.number(at)?;
        match self.recalled_signature(number) {
            Some(found) => Ok(found),
            None => {
                let found = self.found_signature(number, at, effort)?;
                Ok(found)
            }
        }
    }

    // What it takes to compare a signature with this one.
    fn steps_of(&self, signature: Option<usize>) -> usize
        requires { AreKnown self.now.types (option_to_list signature) }
    {
        match signature {
            None => 3,
            Some(number) => steps_of(&self.types, number),
        }
    }

    // Of two types that may be open.
    fn compare(&mut self, first: Option<usize>, second: Option<usize>) -> Result<Answer, NoMemory>
        requires first { AreKnown self.old.types (option_to_list first) }
        requires second { AreKnown self.old.types (option_to_list second) }
        ensures answer { IfOk result (λ r. r ≡ signature_of self.old.table self.old.types first second) }
        ensures grows { Grows self.old self.new }
    {
        signature_of(
            self.alloc,
            self.resolver.table(),
            &mut self.types,
            first,
            second,
        )
    }

    /// Whether one of two methods has, as a member, a subsignature of the other one.
    #[tactic(auto, using(crate::proofs::MethodSteps::knowing))]
    pub fn has_subsignature(
        &mut self,
        one: &ElementRef,
        other: &ElementRef,
        effort: &mut Effort,
    ) -> Result<Answer, NoMemory>
        ensures answer { IfOk result (λ r. r ≡ methods.seen_signature self.old one.now other.now) }
        ensures grows { Grows self.old self.new }
    {
        let first = self.signature(one, effort)?;
        let second = self.signature(other, effort)?;
        effort.take(self.steps_of(second))?;
        let answer = self.compare(first, second)?;
        Ok(answer)
    }

    // ---- types that declare methods

    // The answer that is remembered under a number.
    fn recalled_below(&self, number: usize) -> Option<Answer>
        ensures { IfSome result (λ answer. IsBelow self.now number answer) }
    {
        match self.below.get(&number) {
            None => None,
            Some(answer) => Some(*answer),
        }
    }

    fn remember_below(&mut self, number: usize, answer: Answer) -> Result<(), NoMemory>
        requires { IsBelow self.old number answer }
        ensures { self.new ≡ self.old }
    {
        self.below.insert(number, answer)?;
        Ok(())
    }

    #[tactic(auto, using(crate::proofs::MethodSteps::knowing))]
    fn search(&mut self, declaring: &ElementRef) -> Result<Answer, NoMemory>
        ensures answer { IfOk result (λ r. r ≡ methods.below_answer self.old declaring.now) }
        ensures grows { Grows self.old self.new }
    {
        is_below_known(
            self.alloc,
            self.resolver.table(),
            &mut self.known,
            self.within,
            declaring,
        )
    }

    // How many types searches went over.
    fn searched(&self) -> usize {
        self.known.types().len()
    }

    // Searches for the answer about the element that a number stands for, and remembers it.
    #[tactic(auto, using(crate::proofs::MethodSteps::knowing))]
    fn found_below(
        &mut self,
        number: usize,
        declaring: &ElementRef,
        effort: &mut Effort,
    ) -> Result<Answer, NoMemory>
        requires { IsFor self.old number declaring.now }
        ensures answer { IfOk result (λ r. r ≡ methods.below_answer self.old declaring.now) }
        ensures grows { Grows self.old self.new }
    {
        let before = self.searched();
        let answer = self.search(declaring)?;
        effort.take(steps_of_search(before, self.searched()))?;
        self.remember_below(number, answer)?;
        Ok(answer)
    }

    // Whether the type is below that of an element: it is asked once.
    #[tactic(auto, using(crate::proofs::MethodSteps::knowing))]
    fn is_below(&mut self, declaring: &ElementRef, effort: &mut Effort) -> Result<Answer, NoMemory>
        ensures answer { IfOk result (λ r. r ≡ methods.below_answer self.old declaring.now) }
        ensures grows { Grows self.old self.new }
    {
        let number = self.number(declaring)?;
        match self.recalled_below(number) {
            Some(answer) => Ok(answer),
            None => {
                let answer = self.found_below(number, declaring, effort)?;
                Ok(answer)
            }
        }
    }

    // The element around a method.
    fn around(&self, at: &ElementRef) -> Result<ElementRef, NoMemory>
        ensures { IfOk result (λ around. around ≡ elements.around_of self.now.table at.now) }
    {
        around_of(self.alloc, self.resolver.table(), at)
    }

    // Whether the type is below the one that declares a method.
    #[tactic(auto, using(crate::proofs::MethodSteps::knowing))]
    fn is_below_around(&mut self, at: &ElementRef, effort: &mut Effort) -> Result<Answer, NoMemory>
        ensures answer { IfOk result (λ r. r ≡ methods.below_declaring self.old at.now) }
        ensures grows { Grows self.old self.new }
    {
        let around = self.around(at)?;
        let answer = self.is_below(&around, effort)?;
        Ok(answer)
    }

    #[tactic(auto, using(crate::proofs::MethodSteps::knowing))]
    fn is_below_both(
        &mut self,
        one: &ElementRef,
        other: &ElementRef,
        effort: &mut Effort,
    ) -> Result<Answer, NoMemory>
        ensures answer { IfOk result (λ r. r ≡ methods.seen_below_both self.old one.now other.now) }
        ensures grows { Grows self.old self.new }
    {
        let first = self.is_below_around(one, effort)?;
        let second = self.is_below_around(other, effort)?;
        Ok(first.and(second))
    }

    // ---- overriding

    // Whether the methods themselves let the first one override the second one.
    fn allows(&self, one: &ElementRef, other: &ElementRef) -> bool
        ensures { result ≡ overriding.may_override self.now.table one.now other.now }
    {
        may_override(self.resolver.table(), one, other)
    }

    /// Whether the first method overrides the second one. Their signatures are compared first, since where they differ no type has to be looked at.
    #[tactic(auto, using(crate::proofs::MethodSteps::knowing))]
    pub fn overrides(
        &mut self,
        one: &ElementRef,
        other: &ElementRef,
        effort: &mut Effort,
    ) -> Result<Answer, NoMemory>
        ensures answer { IfOk result (λ r. r ≡ methods.seen_overrides self.old one.now other.now) }
        ensures grows { Grows self.old self.new }
    {
        if !self.allows(one, other) {
            return Ok(Answer::No);
        }
        let signature = self.has_subsignature(one, other, effort)?;
        match signature {
            Answer::No => Ok(Answer::No),
            _ => {
                let below = self.is_below_both(one, other, effort)?;
                Ok(below.and(signature))
            }
        }
    }
}
