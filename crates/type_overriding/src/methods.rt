// Methods as members of one type: the signature of each is resolved once.
ghost use Rattle.std.specs.Prelude.{◌≡◌, IfOk};
ghost use Rattle.type_overriding.specs.Methods.{container_of};
ghost use Rattle.type_overriding.specs.Methods as methods;

use crate::known_methods::KnownMethods;
use apt_base::{ElementRef, NoMemory};
use call_effort::Effort;
use element_table::Table;
use std::alloc::Global;
use std::marker::Model;
use type_levels::Answer;
use type_resolve::Resolver;

/// Methods as members of one type over one table. The signature of a method in the type is resolved once, however many others it is compared with, and whether the type is below a type that declares some of them is asked once. Contracts see the table and the type.
#[derive(Drop)]
pub struct Methods<'a, 'w> {
    known: KnownMethods<'a, 'w>,
}

impl<'a, 'w> Model for Methods<'a, 'w> {
    ghost use Rattle.type_overriding.specs.Methods.{Container, container_code, container_of};

    ghost Value = { Container };

    ghost coded = { container_code };

    ghost view = { λ a. container_of a.known.table a.known.element };
}

impl<'a, 'w> Methods<'a, 'w> {
    /// Those of a type of a table, of which nothing is known yet. It takes no memory.
    pub fn new(alloc: Global, table: &'a Table, within: &'w ElementRef) -> Methods<'a, 'w>
        ensures { result ≡ container_of table.now within.now }
    {
        Methods {
            known: KnownMethods::new(alloc, table, within),
        }
    }

    /// The table.
    pub fn table(&self) -> &'a Table
        ensures { result.now ≡ self.now.table }
    {
        self.known.table()
    }

    /// Takes over what was looked up over the table, and gives what it had itself, so that methods of different types share it. It takes no memory.
    pub fn exchange(&mut self, resolver: Resolver<'a>) -> Resolver<'a>
        requires { resolver ≡ self.old.table }
        ensures given { result ≡ self.old.table }
        ensures kept { self.new ≡ self.old }
    {
        self.known.exchange(resolver)
    }

    /// Whether one of two methods has, as a member of the type, a subsignature of the other one (JLS 8.4.2), as `has_subsignature` tells without a memory.
    #[tactic(auto, using(crate::proofs::MethodSteps::keeping))]
    pub fn has_subsignature(
        &mut self,
        one: &ElementRef,
        other: &ElementRef,
        effort: &mut Effort,
    ) -> Result<Answer, NoMemory>
        ensures answer { IfOk result (λ r. r ≡ methods.has_subsignature self.old one.now other.now) }
        ensures kept { self.new ≡ self.old }
    {
        self.known.has_subsignature(one, other, effort)
    }

    /// Whether the first method overrides the second one in the type (JLS 8.4.8.1, 9.4.1.1), as `overrides` tells without a memory.
    #[tactic(auto, using(crate::proofs::MethodSteps::keeping))]
    pub fn overrides(
        &mut self,
        one: &ElementRef,
        other: &ElementRef,
        effort: &mut Effort,
    ) -> Result<Answer, NoMemory>
        ensures answer { IfOk result (λ r. r ≡ methods.overrides self.old one.now other.now) }
        ensures kept { self.new ≡ self.old }
    {
        self.known.overrides(one, other, effort)
    }
}
