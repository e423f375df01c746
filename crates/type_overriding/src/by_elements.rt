// Subtypes by their elements alone, by numbers: two class types of one element are decided, whatever their arguments and enclosing types.
ghost use Rattle.std.specs.Prelude.{◌≡◌, IfOk};
ghost use Rattle.apt_base.specs.Limits.{max_type_steps};
ghost use Rattle.type_elements.specs.MemberElements.{element_in, same_class};
ghost use Rattle.type_numbers.specs.Nodes.{layer_of};
ghost use Rattle.type_numbers.specs.Numbers.{Grows};
ghost use Rattle.type_subtypes.specs.Numbers.{BothKnown, numbered};
ghost use Rattle.type_overriding.specs.ByElements as below;
ghost use Rattle.type_overriding.specs.ByElements.{are_of_one, next_by_elements};

use apt_base::{ElementRef, NoMemory};
use element_table::Table;
use std::alloc::Global;
use std::marker::Model;
use type_elements::type_of_element;
use type_levels::{Answer, Next, Pair, Relation, related};
use type_members::number_of;
use type_memory::{KnownSubtypes, KnownTypes};
use type_mirror::Mirror;
use type_numbers::{Node, Types};
use type_subtypes::Subtypes;

/// Subtypes by their elements alone over one table, as a relation of types by their numbers. Contracts see the table.
#[derive(Drop)]
pub(crate) struct ByElements<'a> {
    pub alloc: Global,
    pub table: &'a Table,
}

impl<'a> Model for ByElements<'a> {
    ghost use Rattle.element_table.specs.TypeTable.{TypeTable};
    ghost use Rattle.element_table.specs.Held.{table_code};

    ghost Value = { TypeTable };

    ghost coded = { table_code };

    ghost view = { λ a. a.table.now };
}

// Whether both are class types of one element.
#[tactic(auto, using(crate::proofs::AskedByElements::elements))]
fn are_of_one_element(one: &Node, other: &Node) -> bool
    ensures { result ≡ same_class (element_in (layer_of one.now)) (element_in (layer_of other.now)) }
{
    match one {
        Node::Declared(at, _, _) => match other {
            Node::Declared(element, _, _) => at.is_equal(element),
            _ => false,
        },
        _ => false,
    }
}

impl<'a> Relation<Types> for ByElements<'a> {
    type Type = Mirror;

    ghost seen = { λ table types. numbered (next_by_elements table) types };

    fn next(&self, types: &mut Types, pair: Pair) -> Result<Next, NoMemory> {
        if are_of_one_element(types.node(pair.sub), types.node(pair.sup)) {
            return Ok(Next::Decided(Answer::Yes));
        }
        let subtypes = Subtypes {
            alloc: self.alloc,
            table: self.table,
        };
        let next = subtypes.next(types, pair)?;
        Ok(next)
    }
}

/// Whether the type of one element is below that of another one by their elements, within 64 steps.
pub(crate) fn is_below(
    alloc: Global,
    table: &Table,
    types: &mut Types,
    one: &ElementRef,
    other: &ElementRef,
) -> Result<Answer, NoMemory>
    ensures answer { IfOk result (λ r. r ≡ below.is_below table.now max_type_steps one.now other.now) }
    ensures grows { Grows types.old types.new }
{
    let sub = number_of(alloc, table, types, one)?;
    let sup = number_of(alloc, table, types, other)?;
    let relation = ByElements { alloc, table };
    let answer = related(alloc, &relation, types, Pair { sub, sup })?;
    Ok(answer)
}

// ---- over types of which the direct supertypes are remembered

/// The same over the table of types that are known.
#[derive(Drop)]
pub(crate) struct KnownByElements {
    pub alloc: Global,
}

// Whether two types are class types of one element.
fn are_of_one(types: &Types, pair: Pair) -> bool
    requires { BothKnown types.now pair }
    ensures { result ≡ are_of_one types.now pair }
{
    are_of_one_element(types.node(pair.sub), types.node(pair.sup))
}

impl<'a> Relation<KnownTypes<'a>> for KnownByElements {
    ghost use Rattle.type_overriding.specs.ByElements.{searched};

    type Type = Mirror;

    ghost seen = { λ relation known. searched known };

    fn next(&self, known: &mut KnownTypes<'a>, pair: Pair) -> Result<Next, NoMemory> {
        if are_of_one(known.types(), pair) {
            return Ok(Next::Decided(Answer::Yes));
        }
        let subtypes = KnownSubtypes { alloc: self.alloc };
        let next = subtypes.next(known, pair)?;
        Ok(next)
    }
}

/// As `is_below`, over types that are known of a table that asks the same: the header of a type is looked up once for all such questions.
#[tactic(auto, using(crate::proofs::KnownElements::known))]
pub(crate) fn is_below_known(
    alloc: Global,
    table: &Table,
    known: &mut KnownTypes<'_>,
    one: &ElementRef,
    other: &ElementRef,
) -> Result<Answer, NoMemory>
    requires { next_by_elements known.old.table ≡ next_by_elements table.now }
    ensures answer { IfOk result (λ r. r ≡ below.is_below table.now max_type_steps one.now other.now) }
    ensures same { next_by_elements known.new.table ≡ next_by_elements table.now }
{
    let first = type_of_element(alloc, table, one)?;
    let sub = known.add(&first)?;
    let second = type_of_element(alloc, table, other)?;
    let sup = known.add(&second)?;
    let relation = KnownByElements { alloc };
    let answer = related(alloc, &relation, known, Pair { sub, sup })?;
    Ok(answer)
}
