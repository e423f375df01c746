// What annotations say and what fields are worth, of one element after another.
ghost use Rattle.std.specs.Prelude.{◌≡◌, IfOk};
ghost use Rattle.annotation_presence.specs.Carried.{directly_present, present};
ghost use Rattle.annotation_presence.specs.Shown.{carried_in};
ghost use Rattle.type_resolve.specs.Scopes.{find_in};
ghost use Rattle.annotation_values.specs.ElementValues as elements;
ghost use Rattle.annotation_values.specs.Remembered.{ArePlacedAt};

use crate::annotations::{mirrors_of, numbered_with_defaults};
use crate::constants::{constant_of, default_of};
use crate::elements::values_over;
use crate::values::Values;
use annotation_presence::{Carried, Presence};
use apt_base::{ElementRef, List, Name, NoMemory};
use element_table::Table;
use std::alloc::Global;
use std::marker::Model;
use type_mirror::{Annotation, Value};

/// What the annotations of the elements of one table say, and what its fields are worth, as far as they are
/// asked for. It remembers what names mean and what initialisers are worth from one call to the next, so it may
/// last as long as the table; what it remembers is bounded, and no answer depends on it. Contracts see the table
/// alone.
#[derive(Drop)]
pub struct ElementValues<'a> {
    alloc: Global,
    table: &'a Table,
    presence: Presence<'a>,
    values: Values<'a>,
}

impl<'a> Model for ElementValues<'a> {
    ghost use Rattle.element_table.specs.TypeTable.{TypeTable};
    ghost use Rattle.element_table.specs.Held.{table_code};
    ghost use Rattle.annotation_values.specs.Remembered.{AreOver};

    ghost Value = { TypeTable };

    ghost coded = { table_code };

    ghost view = { λ a. a.table.now };

    ghost invariant = { λ a. AreOver a.table.now a.presence a.values };
}

impl<'a> ElementValues<'a> {
    /// Nothing was asked yet.
    pub fn new(alloc: Global, table: &'a Table) -> Result<Self, NoMemory>
        ensures { IfOk result (λ values. values ≡ table.now) }
    {
        let presence = Presence::new(alloc, table)?;
        match values_over(alloc, table) {
            Ok(values) => Ok(ElementValues {
                alloc,
                table,
                presence,
                values,
            }),
            Err(fault) => {
                drop(presence);
                Err(fault)
            }
        }
    }

    // ---- annotations

    // The annotations that are written on an element.
    fn written_on(&mut self, at: &ElementRef) -> Result<Vec<Carried<'a>>, NoMemory>
        ensures value { IfOk result
            (λ list. carried_in list.items ≡ directly_present self.old (find_in self.old at.now)) }
        ensures placed { IfOk result (λ list. ArePlacedAt self.old (carried_in list.items)) }
        ensures kept { self.new ≡ self.old }
    {
        self.values.make_room();
        let list = self.presence.directly_present(at)?;
        Ok(list)
    }

    // The annotations that are present on an element.
    fn present_on(&mut self, at: &ElementRef) -> Result<Vec<Carried<'a>>, NoMemory>
        ensures value { IfOk result
            (λ list. carried_in list.items ≡ present self.old (find_in self.old at.now)) }
        ensures placed { IfOk result (λ list. ArePlacedAt self.old (carried_in list.items)) }
        ensures kept { self.new ≡ self.old }
    {
        self.values.make_room();
        let list = self.presence.present(at)?;
        Ok(list)
    }

    /// The annotations that are written on an element, in order, each with the values that are written in it.
    /// One that is written twice is there twice (JSR 269, `getAnnotationMirrors`).
    #[tactic(auto, unfolding(crate::specs::ElementValues::mirrors))]
    pub fn mirrors(&mut self, at: &ElementRef) -> Result<List<Annotation>, NoMemory>
        ensures value { IfOk result (λ list. list ≡ elements.mirrors self.old at.now) }
        ensures kept { self.new ≡ self.old }
    {
        let list = self.written_on(at)?;
        let mirrors = mirrors_of(self.alloc, &mut self.values, list.as_slice());
        drop(list);
        mirrors
    }

    /// The annotations that are written on an element, and then those that a class inherits, the nearest first,
    /// through 64 superclasses (JLS 9.6.4.3; JSR 269, `getAllAnnotationMirrors`).
    #[tactic(auto, unfolding(crate::specs::ElementValues::all_mirrors))]
    pub fn all_mirrors(&mut self, at: &ElementRef) -> Result<List<Annotation>, NoMemory>
        ensures value { IfOk result (λ list. list ≡ elements.all_mirrors self.old at.now) }
        ensures kept { self.new ≡ self.old }
    {
        let list = self.present_on(at)?;
        let mirrors = mirrors_of(self.alloc, &mut self.values, list.as_slice());
        drop(list);
        mirrors
    }

    /// The values of the annotation of this number among those that `all_mirrors` gives, counted from 0: the
    /// written ones in order, and then the defaults of the elements for which none is written, in the order of
    /// their declaration (JSR 269, `getElementValuesWithDefaults`). `None` where the element has no such
    /// annotation.
    #[tactic(auto, unfolding(crate::specs::ElementValues::values_with_defaults))]
    pub fn values_with_defaults(
        &mut self,
        at: &ElementRef,
        number: u16,
    ) -> Result<Option<List<(Name, Value)>>, NoMemory>
        ensures value { IfOk result
            (λ values. values ≡ elements.values_with_defaults self.old at.now number) }
        ensures kept { self.new ≡ self.old }
    {
        let list = self.present_on(at)?;
        let given = numbered_with_defaults(self.alloc, &mut self.values, list.as_slice(), number);
        drop(list);
        given
    }

    // ---- constants and defaults

    /// The value of a constant variable (JLS 4.12.4; JSR 269, `getConstantValue`): of a field that is final, as
    /// written or implied, of a primitive type or a type that prints as `String` or `java.lang.String`, whose
    /// initialiser is a constant form with a value of a boolean, an integer, a character, a text or a
    /// floating-point literal. `None` for anything else. The value is that of the initialiser, not converted to
    /// the type.
    pub fn constant_of(&mut self, at: &ElementRef) -> Result<Option<Value>, NoMemory>
        ensures value { IfOk result (λ value. value ≡ elements.constant_of self.old at.now) }
        ensures kept { self.new ≡ self.old }
    {
        self.values.make_room();
        let value = constant_of(&mut self.values, at)?;
        Ok(value)
    }

    /// The default of a method (JLS 9.6.2; JSR 269, `getDefaultValue`), or `None` where the element is no method
    /// with a default.
    pub fn default_of(&mut self, at: &ElementRef) -> Result<Option<Value>, NoMemory>
        ensures value { IfOk result (λ value. value ≡ elements.default_of self.old at.now) }
        ensures kept { self.new ≡ self.old }
    {
        self.values.make_room();
        let value = default_of(&mut self.values, at)?;
        Ok(value)
    }
}
