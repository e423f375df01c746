// The fields of types, inherited ones included.
ghost use Rattle.std.specs.Prelude.{◌≡◌, ◌↔◌, map, IsTrue, IfOk, IfSome, IfNone};
ghost use Rattle.element_table.specs.TypeTable.{IsTable};
ghost use Rattle.name_resolve.specs.Finds.{Nothing, together};
ghost use Rattle.name_resolve.specs.Placed.{IsPlaced, ArePlaced};
ghost use Rattle.name_resolve.specs.Shown.{find_of, finds_of, Gives};
ghost use Rattle.type_resolve.specs.Scopes.{find_in};
ghost use Rattle.expression_names.specs.Fields.{declared_fields, fields_within, fields, fields_of};
ghost use Rattle.expression_names.specs.Remembered.{HasNoFields};

use crate::answers::{Answer, Answers};
use crate::declared::{declared_fields, has_few_children, supertypes};
use crate::field_rows::rows_of;
use crate::known_rows::KnownRows;
use apt_base::{ElementRef, MAX_TYPE_STEPS, NoMemory};
use element_table::Table;
use name_resolve::{Finds, Found, Looks, both, copied_finds};
use std::alloc::Global;
use std::marker::Model;
use std::mem;
use type_resolve::found_in;

/// The levels of supertypes through which fields are inherited.
const LEVELS: usize = MAX_TYPE_STEPS as usize;

/// The look-ups of fields over one table, which remember what they found. Contracts see the table alone.
///
/// Out of memory comes also where one look-up asks more than 32,768 questions: one for each type and each
/// number of levels of supertypes that are left.
#[derive(Drop)]
pub struct Fields<'a> {
    pub(crate) alloc: Global,
    pub(crate) table: &'a Table,
    pub(crate) looks: Looks<'a>,
    answers: Answers<'a>,
    // The fields of types with many children, by their names.
    rows: KnownRows<'a>,
}

impl<'a> Model for Fields<'a> {
    ghost use Rattle.element_table.specs.TypeTable.{TypeTable};
    ghost use Rattle.element_table.specs.Held.{table_code};
    ghost use Rattle.expression_names.specs.Remembered.{IsRemembered};

    ghost Value = { TypeTable };

    ghost coded = { table_code };

    ghost view = { λ a. a.table.now };

    ghost invariant = { λ a. IsRemembered a.table.now a.looks a.answers a.rows };
}

/// Whether nothing was found.
pub(crate) fn is_nothing(finds: &Finds<'_>) -> bool
    ensures { IsTrue result ↔ (finds_of finds.now ≡ Nothing) }
{
    matches!(finds, Finds::Nothing)
}

// What stands at an element, if the table has its unit; where it has none there are no fields.
#[tactic(auto, using(crate::proofs::FieldSteps::located))]
fn located<'a>(
    alloc: Global,
    table: &'a Table,
    at: &ElementRef,
) -> Result<Option<Found<'a>>, NoMemory>
    requires { IsTable table.now }
    ensures value { IfOk result
        (λ found. IfSome found (λ f. find_of f ≡ find_in table.now at.now)) }
    ensures placed { IfOk result (λ found. IfSome found (λ f. IsPlaced table.now (find_of f))) }
    ensures free { IfOk result (λ found. IfNone found (HasNoFields table.now at.now)) }
{
    match table.find(&at.unit) {
        None => Ok(None),
        Some(unit) => {
            let found = found_in(alloc, table, unit, at)?;
            Ok(Some(found))
        }
    }
}

impl<'a> Fields<'a> {
    /// Nothing was asked yet. It takes no memory.
    pub fn new(alloc: Global, table: &'a Table) -> Self
        requires { IsTable table.now }
        ensures { result ≡ table.now }
    {
        Fields {
            alloc,
            table,
            looks: Looks::new(alloc, table),
            answers: Answers::new(alloc),
            rows: KnownRows::new(alloc),
        }
    }

    // The fields of this name that a type declares. Of a type with many children it takes the time of a look-up,
    // once the type was asked twice.
    fn own_fields(&mut self, of: &Found<'a>, name: &str) -> Result<Finds<'a>, NoMemory>
        requires placed { IsPlaced self.old (find_of of.now) }
        ensures value { Gives result (declared_fields (find_of of.now) name.now) }
        ensures kept { self.new ≡ self.old }
    {
        if has_few_children(of) {
            return declared_fields(self.alloc, of, name);
        }
        if let Some(finds) = self.rows.find(of, name)? {
            return Ok(finds);
        }
        if !self.rows.is_asked_again(of)? {
            return declared_fields(self.alloc, of, name);
        }
        let rows = rows_of(self.alloc, of)?;
        let finds = rows.find(self.alloc, name)?;
        self.rows.add(rows)?;
        Ok(finds)
    }

    /// Makes the look-ups of types anew where many questions are remembered.
    pub(crate) fn make_room(&mut self)
        ensures { self.new ≡ self.old }
    {
        if self.looks.are_few() {
            return;
        }
        let none = Looks::new(self.alloc, self.table);
        let many = mem::replace(&mut self.looks, none);
        drop(many);
    }

    // ---- by levels of supertypes

    // The fields of this name of an element, with this many levels of supertypes left.
    #[cycle(levels)]
    fn fields_at(
        &mut self,
        levels: usize,
        at: &ElementRef,
        name: &str,
    ) -> Result<Finds<'a>, NoMemory>
        ensures value { Gives result (fields_within self.old levels (find_in self.old at.now) name.now) }
        ensures kept { self.new ≡ self.old }
    {
        if let Some(known) = self.answers.find(levels, at, name)? {
            return copied_finds(self.alloc, &known.finds);
        }
        let finds = self.searched(levels, at, name)?;
        let copy = copied_finds(self.alloc, &finds)?;
        let at = at.copy(self.alloc)?;
        let name = String::from_str(self.alloc, name)?;
        let answer = Answer {
            levels,
            at,
            name,
            finds,
        };
        self.answers.add(answer)?;
        Ok(copy)
    }

    // The same, without a look at what is remembered of it.
    #[cycle(levels)]
    fn searched(
        &mut self,
        levels: usize,
        at: &ElementRef,
        name: &str,
    ) -> Result<Finds<'a>, NoMemory>
        ensures value { Gives result (fields_within self.old levels (find_in self.old at.now) name.now) }
        ensures kept { self.new ≡ self.old }
    {
        match located(self.alloc, self.table, at)? {
            None => Ok(Finds::Nothing),
            Some(found) => self.fields_within(levels, &found, name),
        }
    }

    // The same of what stands there.
    #[cycle(levels)]
    #[tactic(auto, using(crate::proofs::FieldSteps::levels))]
    fn fields_within(
        &mut self,
        levels: usize,
        of: &Found<'a>,
        name: &str,
    ) -> Result<Finds<'a>, NoMemory>
        requires placed { IsPlaced self.old (find_of of.now) }
        ensures value { Gives result (fields_within self.old levels (find_of of.now) name.now) }
        ensures kept { self.new ≡ self.old }
    {
        let own = self.own_fields(of, name)?;
        if !is_nothing(&own) {
            return Ok(own);
        }
        if levels == 0 {
            return Ok(own);
        }
        let types = supertypes(self.alloc, self.table, of)?;
        self.together(levels - 1, types.as_slice(), name)
    }

    // The fields of this name of all these types.
    #[cycle(levels)]
    fn together(
        &mut self,
        levels: usize,
        types: &[ElementRef],
        name: &str,
    ) -> Result<Finds<'a>, NoMemory>
        ensures value { Gives result (together
            (map (λ at. fields_within self.old levels (find_in self.old at) name.now) types.now)) }
        ensures kept { self.new ≡ self.old }
    {
        let mut finds = Finds::Nothing;
        for at in types {
            let more = self.fields_at(levels, at, name)?;
            finds = both(finds, more);
        }
        Ok(finds)
    }

    // ---- through all levels

    /// The fields of this name of a type.
    #[tactic(auto, unfolding(crate::specs::Fields::fields))]
    pub(crate) fn fields(&mut self, of: &Found<'a>, name: &str) -> Result<Finds<'a>, NoMemory>
        requires placed { IsPlaced self.old (find_of of.now) }
        ensures value { Gives result (fields self.old (find_of of.now) name.now) }
        ensures kept { self.new ≡ self.old }
    {
        self.answers.make_room();
        self.fields_within(LEVELS, of, name)
    }

    /// The fields of this name of what was found; what is ambiguous has none.
    pub(crate) fn fields_of(&mut self, of: Finds<'a>, name: &str) -> Result<Finds<'a>, NoMemory>
        requires placed { ArePlaced self.old (finds_of of) }
        ensures value { Gives result (fields_of self.old (finds_of of.entry) name.now) }
        ensures kept { self.new ≡ self.old }
    {
        match of {
            Finds::One(find) => self.fields(&find, name),
            Finds::Nothing => Ok(Finds::Nothing),
            Finds::Several => Ok(Finds::Nothing),
        }
    }
}
