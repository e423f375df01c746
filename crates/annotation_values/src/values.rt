// What the names in values mean, and which of them are constants.
ghost use Rattle.std.specs.Prelude.{◌≡◌, Some, IfOk};
ghost use Rattle.apt_base.specs.Identifiers.{parts};
ghost use Rattle.decl_elements.specs.Shown.{node_of};
ghost use Rattle.element_table.specs.TypeTable.{IsTable};
ghost use Rattle.name_resolve.specs.Annotations.{annotation_meaning};
ghost use Rattle.name_resolve.specs.Meaning.{Within};
ghost use Rattle.name_resolve.specs.Mirrors.{type_meaning};
ghost use Rattle.name_resolve.specs.Placed.{IsPlaced, ArePlaced};
ghost use Rattle.name_resolve.specs.Shown.{find_of, finds_of, Gives};
ghost use Rattle.name_resolve.specs.Ways.{node_at};
ghost use Rattle.expression_names.specs.Fields.{field_meaning};
ghost use Rattle.annotation_values.specs.Values.{annotation_mirror, constant_within, meanings_within};
ghost use Rattle.annotation_values.specs.Values.{value_of_node, value_of_find, value_of_finds};
ghost use Rattle.annotation_values.specs.Remembered.{field_value};

use crate::field_values::FieldValues;
use crate::sizes::size;
use crate::texts::{initialiser, is_enum_constant};
use apt_base::{ElementRef, List, Name, NoMemory};
use call_effort::Effort;
use decl_elements::{Place, place_at};
use decl_tree::TypeText;
use element_table::Table;
use expression_names::Fields;
use name_resolve::{Finds, Found, Looks, copied, split};
use std::alloc::Global;
use std::marker::Model;
use std::mem;
use type_mirror::{BaseMirror, DeclaredMirror, Mirror, Value};
use type_resolve::{found_annotation, mirror_at, reference};

/// How many names lead to a constant at most.
pub(crate) const MAX_NAMES: usize = 64;

// What the values of one call may take, in bytes: of joined texts, and of constants that are copied.
const MOST_BYTES: usize = 67_108_864;

/// The values that are written in elements of one table, with what was learned of the initialisers of fields.
/// Contracts see the table alone.
#[derive(Drop)]
pub(crate) struct Values<'a> {
    pub alloc: Global,
    table: &'a Table,
    looks: Looks<'a>,
    fields: Fields<'a>,
    pub known: FieldValues<'a>,
    pub effort: Effort,
}

impl<'a> Model for Values<'a> {
    ghost use Rattle.element_table.specs.TypeTable.{TypeTable};
    ghost use Rattle.element_table.specs.Held.{table_code};
    ghost use Rattle.annotation_values.specs.Remembered.{IsRemembered};

    ghost Value = { TypeTable };

    ghost coded = { table_code };

    ghost view = { λ a. a.table.now };

    ghost invariant = { λ a. IsRemembered a.table.now a.looks a.fields a.known };
}

fn copied_value(
    alloc: Global,
    effort: &mut Effort,
    value: &Option<Value>,
) -> Result<Option<Value>, NoMemory>
    ensures { IfOk result (λ copy. copy ≡ value.now) }
{
    match value {
        None => Ok(None),
        Some(value) => {
            effort.take(size(value))?;
            let copy = value.copy(alloc)?;
            Ok(Some(copy))
        }
    }
}

// The type of an annotation whose name means this interface, or none.
fn annotation_mirror(alloc: Global, name: &Name, at: Option<ElementRef>) -> Result<Mirror, NoMemory>
    ensures { IfOk result (λ m. m ≡ annotation_mirror name.now at) }
{
    match at {
        None => Ok(Mirror::plain(alloc, BaseMirror::Error(name.copy()?))),
        Some(element) => {
            let declared = DeclaredMirror {
                element,
                enclosing: None,
                arguments: List::new(alloc),
            };
            Ok(Mirror::plain(alloc, BaseMirror::Declared(declared)))
        }
    }
}

impl<'a> Values<'a> {
    /// Nothing was asked yet. It takes no memory.
    pub fn new(alloc: Global, table: &'a Table) -> Self
        requires { IsTable table.now }
        ensures { result ≡ table.now }
    {
        Values {
            alloc,
            table,
            looks: Looks::new(alloc, table),
            fields: Fields::new(alloc, table),
            known: FieldValues::new(alloc),
            effort: Effort::new(MOST_BYTES),
        }
    }

    /// The table. It takes no memory.
    pub fn table(&self) -> &'a Table
        ensures { result.now ≡ self.now }
    {
        self.table
    }

    // ---- from call to call

    // Makes the look-ups anew where many questions are remembered.
    fn renew_looks(&mut self)
        ensures { self.new ≡ self.old }
    {
        if self.looks.are_few() {
            return;
        }
        let none = Looks::new(self.alloc, self.table);
        let many = mem::replace(&mut self.looks, none);
        drop(many);
    }

    /// Makes room for one call: of what is remembered all is forgotten that is much, and bytes are counted anew.
    pub fn make_room(&mut self)
        ensures { self.new ≡ self.old }
    {
        self.renew_looks();
        self.known.make_room();
        self.effort = Effort::new(MOST_BYTES);
    }

    // ---- names

    /// What a name means as a value there.
    pub fn field(&mut self, at: &Found<'a>, name: &Name) -> Result<Finds<'a>, NoMemory>
        requires placed { IsPlaced self.old (find_of at.now) }
        ensures value { Gives result (field_meaning self.old (find_of at.now) (parts name.now)) }
        ensures placed { IfOk result (λ f. ArePlaced self.old (finds_of f)) }
        ensures kept { self.new ≡ self.old }
    {
        let names = split(self.alloc, name.as_str())?;
        let finds = self.fields.meaning(at, names.as_slice())?;
        Ok(finds)
    }

    /// The type that is written there.
    pub fn written_type(&mut self, at: &Found<'a>, of: &TypeText) -> Result<Mirror, NoMemory>
        requires placed { IsPlaced self.old (find_of at.now) }
        ensures value { IfOk result (λ m. m ≡ type_meaning self.old (Within (find_of at.now)) of.now) }
        ensures kept { self.new ≡ self.old }
    {
        let at = copied(self.alloc, at)?;
        mirror_at(self.alloc, self.table, at, of)
    }

    // The annotation interface that a name means there.
    #[tactic(auto, unfolding(name_resolve::specs::Annotations::annotation_meaning))]
    fn annotation_type(
        &mut self,
        at: &Found<'a>,
        name: &Name,
    ) -> Result<Option<ElementRef>, NoMemory>
        requires placed { IsPlaced self.old (find_of at.now) }
        ensures value { IfOk result
            (λ of. of ≡ annotation_meaning self.old (Within (find_of at.now)) name.now) }
        ensures kept { self.new ≡ self.old }
    {
        let names = split(self.alloc, name.as_str())?;
        let finds = self.looks.meaning(false, at, names.as_slice())?;
        let of = found_annotation(self.alloc, &finds)?;
        Ok(of)
    }

    /// The type of an annotation of that name there.
    pub fn annotation_mirror(&mut self, at: &Found<'a>, name: &Name) -> Result<Mirror, NoMemory>
        requires placed { IsPlaced self.old (find_of at.now) }
        ensures value { IfOk result (λ m. m ≡ annotation_mirror name.now
            (annotation_meaning self.old (Within (find_of at.now)) name.now)) }
        ensures kept { self.new ≡ self.old }
    {
        let of = self.annotation_type(at, name)?;
        annotation_mirror(self.alloc, name, of)
    }

    // ---- constants

    // What the initialiser of a final field is worth, as it was learned; out of memory where it was not.
    fn recalled(&mut self, names: usize, at: &Found<'a>) -> Result<Option<Value>, NoMemory>
        requires placed { IsPlaced self.old (find_of at.now) }
        ensures value { IfOk result (λ v. v ≡ field_value self.old names (find_of at.now)) }
        ensures kept { self.new ≡ self.old }
    {
        let Some(known) = self.known.find(names, at)? else {
            return Err(NoMemory);
        };
        let value = copied_value(self.alloc, &mut self.effort, &known.value)?;
        Ok(value)
    }

    // The constant that stands at this place, through this many further names.
    fn value_of_node(
        &mut self,
        names: usize,
        at: &Found<'a>,
        place: Place<'a>,
    ) -> Result<Option<Value>, NoMemory>
        requires placed { IsPlaced self.old (find_of at.now) }
        requires stands { node_at at.now.unit.now at.now.path.items ≡ Some (node_of place) }
        ensures value { IfOk result (λ v. v
            ≡ value_of_node (meanings_within self.old names (find_of at.now)) (find_of at.now) (node_of place.entry)) }
        ensures kept { self.new ≡ self.old }
    {
        if is_enum_constant(place) {
            let element = reference(self.alloc, at)?;
            return Ok(Some(Value::Constant(element)));
        }
        match initialiser(place) {
            None => Ok(None),
            Some(_) => {
                let value = self.recalled(names, at)?;
                Ok(value)
            }
        }
    }

    // The constant that was found, through this many further names.
    #[tactic(auto, unfolding(name_resolve::specs::Ways::node_at))]
    fn value_of_find(&mut self, names: usize, at: &Found<'a>) -> Result<Option<Value>, NoMemory>
        requires placed { IsPlaced self.old (find_of at.now) }
        ensures value { IfOk result (λ v. v
            ≡ value_of_find (meanings_within self.old names (find_of at.now)) (find_of at.now)) }
        ensures kept { self.new ≡ self.old }
    {
        match place_at(at.unit, at.path.as_slice()) {
            None => Ok(None),
            Some(place) => {
                let value = self.value_of_node(names, at, place)?;
                Ok(value)
            }
        }
    }

    fn value_of_finds(&mut self, names: usize, finds: &Finds<'a>) -> Result<Option<Value>, NoMemory>
        requires placed { ArePlaced self.old (finds_of finds.now) }
        ensures value { IfOk result
            (λ v. v ≡ value_of_finds (meanings_within self.old names) (finds_of finds.now)) }
        ensures kept { self.new ≡ self.old }
    {
        match finds {
            Finds::One(find) => {
                let value = self.value_of_find(names, find)?;
                Ok(value)
            }
            Finds::Nothing => Ok(None),
            Finds::Several => Ok(None),
        }
    }

    /// The constant that a name is there, through this many names, itself included.
    #[tactic(auto, using(crate::proofs::ConstantNames::by_names))]
    pub fn constant(
        &mut self,
        names: usize,
        at: &Found<'a>,
        name: &Name,
    ) -> Result<Option<Value>, NoMemory>
        requires placed { IsPlaced self.old (find_of at.now) }
        ensures value { IfOk result
            (λ v. v ≡ constant_within self.old names (find_of at.now) name.now) }
        ensures kept { self.new ≡ self.old }
    {
        if names == 0 {
            return Ok(None);
        }
        let finds = self.field(at, name)?;
        let value = self.value_of_finds(names - 1, &finds)?;
        Ok(value)
    }
}
