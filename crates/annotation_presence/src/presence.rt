// Which annotations are present on elements.
ghost use Rattle.std.specs.Prelude.{◌≡◌, ◌++◌, [], map, filter, IfOk, IfSome, IfNone};
ghost use Rattle.apt_base.specs.Identifiers.{parts};
ghost use Rattle.element_table.specs.TableElements.{reference};
ghost use Rattle.name_resolve.specs.Annotations.{found_annotation, annotation_meaning};
ghost use Rattle.name_resolve.specs.Meaning.{Within, meaning};
ghost use Rattle.name_resolve.specs.Parts.{lent};
ghost use Rattle.name_resolve.specs.Placed.{IsPlaced};
ghost use Rattle.name_resolve.specs.Shown.{find_of};
ghost use Rattle.name_resolve.specs.Mirrors.{superclass};
ghost use Rattle.type_elements.specs.MemberElements.{class_element};
ghost use Rattle.type_resolve.specs.Scopes.{find_in, IsType};
ghost use Rattle.annotation_presence.specs.Carried.{texts_at, carried, directly_present, inherited, is_inherited, is_passed_on};
ghost use Rattle.annotation_presence.specs.Carried.{is_class, superclass_element, present_within, present, types_of};
ghost use Rattle.annotation_presence.specs.Remembered.{StandsAt};
ghost use Rattle.annotation_presence.specs.Shown.{carried_of, carried_in};

use crate::carried::{Carried, has_type, types_of};
use crate::meanings::{Meaning, Meanings, copied, scope_of};
use crate::superclasses::{Superclass, Superclasses};
use apt_base::{ElementRef, List, Name, NoMemory};
use decl_elements::place_at;
use decl_tree::{AnnotationText, TypeKind};
use element_table::Table;
use name_resolve::{Found, Looks, split, type_at};
use std::alloc::Global;
use std::marker::Model;
use std::mem;
use type_elements::class_element;
use type_mirror::Mirror;
use type_resolve::{found_annotation, found_in, superclass};

/// Through how many superclasses an annotation is inherited.
const MAX_SUPERCLASSES: usize = 64;

/// Which annotations are present on the elements of one table, as far as they are asked for. Contracts see
/// the table alone.
#[derive(Drop)]
pub struct Presence<'a> {
    alloc: Global,
    table: &'a Table,
    looks: Looks<'a>,
    meanings: Meanings,
    superclasses: Superclasses,
    // Where `Inherited` would be declared.
    inherited: ElementRef,
}

impl<'a> Model for Presence<'a> {
    ghost use Rattle.element_table.specs.TypeTable.{TypeTable};
    ghost use Rattle.annotation_presence.specs.Remembered.{IsRemembered};
    ghost use Rattle.element_table.specs.Held.{table_code};

    ghost Value = { TypeTable };

    ghost coded = { table_code };

    ghost view = { λ a. a.table.now };

    ghost invariant = { λ a. IsRemembered a.table.now a.looks a.meanings a.superclasses a.inherited };
}

fn inherited(alloc: Global) -> Result<ElementRef, NoMemory>
    ensures { IfOk result (λ at. at ≡ inherited) }
{
    Ok(ElementRef {
        unit: Name::new(alloc, "java.lang.annotation.Inherited")?,
        path: List::new(alloc),
    })
}

fn element_at(alloc: Global, unit: &Name, path: &Vec<u16>) -> Result<ElementRef, NoMemory>
    ensures { IfOk result (λ at. at ≡ reference unit.now path.now.items) }
{
    let unit = unit.copy()?;
    let path = List::from_vec(Vec::from_slice(alloc, path.as_slice())?);
    Ok(ElementRef { unit, path })
}

// What stands at an element, if the table has its unit.
#[tactic(auto, using(crate::proofs::PresenceLemmas::located))]
fn located<'a>(
    alloc: Global,
    table: &'a Table,
    at: &ElementRef,
) -> Result<Option<Found<'a>>, NoMemory>
    ensures stands { IfOk result (λ found. IfSome found (λ f. StandsAt table.now at.now (find_of f))) }
    ensures free { IfOk result
        (λ found. IfNone found (directly_present table.now (find_in table.now at.now) ≡ [])) }
{
    match table.find(&at.unit) {
        None => Ok(None),
        Some(unit) => {
            let found = found_in(alloc, table, unit, at)?;
            Ok(Some(found))
        }
    }
}

// The annotations that are written there.
#[tactic(auto, unfolding(crate::specs::Carried::texts_at, name_resolve::specs::Ways::node_at))]
fn texts_at<'a>(at: &Found<'a>) -> &'a [AnnotationText]
    ensures { result.now ≡ texts_at (find_of at.now) }
{
    match place_at(at.unit, at.path.as_slice()) {
        None => &[],
        Some(place) => place.annotations(),
    }
}

fn copied_reference(alloc: Global, at: &Option<ElementRef>) -> Result<Option<ElementRef>, NoMemory>
    ensures { IfOk result (λ copy. copy ≡ at.now) }
{
    match at {
        None => Ok(None),
        Some(at) => Ok(Some(at.copy(alloc)?)),
    }
}

// ---- superclasses

fn is_class(kind: TypeKind) -> bool
    ensures { result ≡ is_class kind }
{
    match kind {
        TypeKind::Class => true,
        TypeKind::Enum => false,
        TypeKind::AnnotationType => false,
        TypeKind::Interface => false,
    }
}

// The element of a class type.
fn element_of(alloc: Global, of: &Mirror) -> Result<Option<ElementRef>, NoMemory>
    ensures { IfOk result (λ at. at ≡ class_element of.now) }
{
    match class_element(of) {
        None => Ok(None),
        Some(at) => Ok(Some(at.copy(alloc)?)),
    }
}

// The superclass of a class.
fn find_superclass(
    alloc: Global,
    table: &Table,
    at: &ElementRef,
) -> Result<Option<ElementRef>, NoMemory>
    requires { IsType table.now at.now }
    ensures { IfOk result
        (λ above. above ≡ class_element (superclass table.now (find_in table.now at.now))) }
{
    let mirror = superclass(alloc, table, at)?;
    element_of(alloc, &mirror)
}

impl<'a> Presence<'a> {
    /// Nothing was asked yet.
    pub fn new(alloc: Global, table: &'a Table) -> Result<Self, NoMemory>
        ensures { IfOk result (λ presence. presence ≡ table.now) }
    {
        let inherited = inherited(alloc)?;
        let _declared = table.find(&inherited.unit);
        Ok(Presence {
            alloc,
            table,
            looks: Looks::new(alloc, table),
            meanings: Meanings::new(alloc),
            superclasses: Superclasses::new(alloc),
            inherited,
        })
    }

    /// The table. It takes no memory.
    pub fn table(&self) -> &'a Table
        ensures { result.now ≡ self.now }
    {
        self.table
    }

    // ---- written

    // Makes the look-ups anew where many questions are remembered.
    fn make_room(&mut self)
        ensures { self.new ≡ self.old }
    {
        if self.looks.are_few() {
            return;
        }
        let none = Looks::new(self.alloc, self.table);
        let many = mem::replace(&mut self.looks, none);
        drop(many);
    }

    // The annotation interface that the names mean there.
    fn look_up(&mut self, at: &Found<'a>, names: &[&str]) -> Result<Option<ElementRef>, NoMemory>
        requires placed { IsPlaced self.old (find_of at.now) }
        ensures value { IfOk result
            (λ of. of ≡ found_annotation (meaning self.old (Within (find_of at.now)) (lent names.now))) }
        ensures kept { self.new ≡ self.old }
    {
        self.make_room();
        let finds = self.looks.meaning(false, at, names)?;
        found_annotation(self.alloc, &finds)
    }

    // The same of a name with these parts, which is looked up once on each element.
    #[tactic(auto, using(crate::proofs::PresenceLemmas::meanings_on))]
    fn meaning_on(
        &mut self,
        element: ElementRef,
        at: &Found<'a>,
        names: &[&str],
        name: &Name,
    ) -> Result<Option<ElementRef>, NoMemory>
        requires stands { StandsAt self.old element (find_of at.now) }
        requires names { lent names.now ≡ parts name.now }
        ensures value { IfOk result
            (λ of. of ≡ annotation_meaning self.old (Within (find_of at.now)) name.now) }
        ensures kept { self.new ≡ self.old }
    {
        if let Some(known) = self.meanings.find(self.table, &element, name)? {
            return copied_reference(self.alloc, &known.annotation_type);
        }
        let annotation_type = self.look_up(at, names)?;
        let copy = copied_reference(self.alloc, &annotation_type)?;
        let name = name.copy()?;
        let meaning = Meaning {
            at: element,
            name,
            annotation_type,
        };
        self.meanings.add(self.table, meaning)?;
        Ok(copy)
    }

    // The annotation interface that a name means there.
    fn meaning(
        &mut self,
        element: &ElementRef,
        at: &Found<'a>,
        name: &Name,
    ) -> Result<Option<ElementRef>, NoMemory>
        requires stands { StandsAt self.old element.now (find_of at.now) }
        ensures value { IfOk result
            (λ of. of ≡ annotation_meaning self.old (Within (find_of at.now)) name.now) }
        ensures kept { self.new ≡ self.old }
    {
        let names = split(self.alloc, name.as_str())?;
        let all = names.as_slice();
        let Some((first, others)) = all.split_first() else {
            return Ok(None);
        };
        let scope = scope_of(self.alloc, at, *first)?;
        let outer = element_at(self.alloc, &element.unit, &scope.path)?;
        self.meaning_on(outer, &scope, all, name)
    }

    fn carried(
        &mut self,
        element: &ElementRef,
        at: &Found<'a>,
        text: &'a AnnotationText,
    ) -> Result<Carried<'a>, NoMemory>
        requires stands { StandsAt self.old element.now (find_of at.now) }
        ensures value { IfOk result (λ c. carried_of c ≡ carried self.old (find_of at.now) text.now) }
        ensures kept { self.new ≡ self.old }
    {
        let annotation_type = self.meaning(element, at, &text.name)?;
        let at = copied(self.alloc, at)?;
        Ok(Carried {
            at,
            text,
            annotation_type,
        })
    }

    fn all_carried(
        &mut self,
        element: &ElementRef,
        at: &Found<'a>,
        texts: &'a [AnnotationText],
    ) -> Result<Vec<Carried<'a>>, NoMemory>
        requires stands { StandsAt self.old element.now (find_of at.now) }
        ensures value { IfOk result
            (λ list. carried_in list.items ≡ map (carried self.old (find_of at.now)) texts.now) }
        ensures kept { self.new ≡ self.old }
    {
        let mut list = Vec::new(self.alloc);
        for text in texts {
            let each = self.carried(element, at, text)?;
            list.push(each)?;
        }
        Ok(list)
    }

    /// The annotations that are written on an element, in order.
    #[tactic(auto, using(crate::proofs::PresenceLemmas::directly_found))]
    pub fn directly_present(&mut self, at: &ElementRef) -> Result<Vec<Carried<'a>>, NoMemory>
        ensures value { IfOk result
            (λ list. carried_in list.items ≡ directly_present self.old (find_in self.old at.now)) }
        ensures kept { self.new ≡ self.old }
    {
        match located(self.alloc, self.table, at)? {
            None => Ok(Vec::new(self.alloc)),
            Some(found) => self.all_carried(at, &found, texts_at(&found)),
        }
    }

    // ---- superclasses

    // The superclass of a class, which is looked up once.
    #[tactic(auto, using(crate::proofs::PresenceLemmas::superclasses_known))]
    fn superclass_of_class(&mut self, at: &ElementRef) -> Result<Option<ElementRef>, NoMemory>
        requires { IsType self.old at.now }
        ensures value { IfOk result
            (λ above. above ≡ class_element (superclass self.old (find_in self.old at.now))) }
        ensures kept { self.new ≡ self.old }
    {
        if let Some(known) = self.superclasses.find(self.table, at)? {
            return copied_reference(self.alloc, &known.superclass);
        }
        let superclass = find_superclass(self.alloc, self.table, at)?;
        let copy = copied_reference(self.alloc, &superclass)?;
        let of = at.copy(self.alloc)?;
        let class = Superclass { of, superclass };
        self.superclasses.add(self.table, class)?;
        Ok(copy)
    }

    // The superclass of a class that stands there.
    fn superclass_at(
        &mut self,
        at: &ElementRef,
        found: &Found<'a>,
    ) -> Result<Option<ElementRef>, NoMemory>
        requires stands { StandsAt self.old at.now (find_of found.now) }
        ensures value { IfOk result
            (λ above. above ≡ superclass_element self.old (find_in self.old at.now)) }
        ensures kept { self.new ≡ self.old }
    {
        match type_at(found) {
            None => Ok(None),
            Some(declaration) => {
                if !is_class(declaration.kind) {
                    return Ok(None);
                }
                self.superclass_of_class(at)
            }
        }
    }

    #[tactic(auto, using(crate::proofs::PresenceLemmas::superclasses_in))]
    fn superclass_of(&mut self, at: &ElementRef) -> Result<Option<ElementRef>, NoMemory>
        ensures value { IfOk result
            (λ above. above ≡ superclass_element self.old (find_in self.old at.now)) }
        ensures kept { self.new ≡ self.old }
    {
        match self.table.find(&at.unit) {
            None => Ok(None),
            Some(unit) => {
                let found = found_in(self.alloc, self.table, unit, at)?;
                self.superclass_at(at, &found)
            }
        }
    }

    // ---- inherited

    // Whether an annotation interface carries `Inherited`.
    #[tactic(auto, unfolding(crate::specs::Carried::is_inherited))]
    fn is_inherited(&mut self, at: &ElementRef) -> Result<bool, NoMemory>
        ensures value { IfOk result (λ answer. answer ≡ is_inherited self.old at.now) }
        ensures kept { self.new ≡ self.old }
    {
        let list = self.directly_present(at)?;
        Ok(has_type(&self.inherited, list.as_slice()))
    }

    fn is_passed_on(&mut self, own: &[Carried<'a>], each: &Carried<'a>) -> Result<bool, NoMemory>
        ensures value { IfOk result
            (λ answer. answer ≡ is_passed_on self.old (carried_in own.now) (carried_of each.now)) }
        ensures kept { self.new ≡ self.old }
    {
        match &each.annotation_type {
            None => Ok(false),
            Some(at) => {
                if has_type(at, own) {
                    return Ok(false);
                }
                self.is_inherited(at)
            }
        }
    }

    // Those of the superclass that a class inherits on which these are written.
    fn passed_on(
        &mut self,
        own: &[Carried<'a>],
        above: Vec<Carried<'a>>,
    ) -> Result<Vec<Carried<'a>>, NoMemory>
        ensures value { IfOk result (λ list. carried_in list.items
            ≡ filter (is_passed_on self.old (carried_in own.now)) (carried_in above.entry.items)) }
        ensures kept { self.new ≡ self.old }
    {
        let mut list = Vec::new(self.alloc);
        for each in above {
            if self.is_passed_on(own, &each)? {
                list.push(each)?;
            }
        }
        Ok(list)
    }

    // Those of a class on which these are written, where the others are present on its superclass.
    fn with_inherited(
        &mut self,
        own: Vec<Carried<'a>>,
        above: Vec<Carried<'a>>,
    ) -> Result<Vec<Carried<'a>>, NoMemory>
        ensures value { IfOk result (λ list. carried_in list.items ≡ carried_in own.entry.items
            ++ filter (is_passed_on self.old (carried_in own.entry.items)) (carried_in above.entry.items)) }
        ensures kept { self.new ≡ self.old }
    {
        let mut inherited = self.passed_on(own.as_slice(), above)?;
        let mut all = own;
        all.append(&mut inherited)?;
        Ok(all)
    }

    // Those that are present on an element, through this many superclasses.
    #[tactic(auto, using(crate::proofs::PresenceLemmas::levels))]
    fn present_within(
        &mut self,
        levels: usize,
        at: &ElementRef,
    ) -> Result<Vec<Carried<'a>>, NoMemory>
        ensures value { IfOk result
            (λ list. carried_in list.items ≡ present_within self.old levels (find_in self.old at.now)) }
        ensures kept { self.new ≡ self.old }
    {
        let own = self.directly_present(at)?;
        if levels == 0 {
            return Ok(own);
        }
        let above = self.superclass_of(at)?;
        match above {
            None => Ok(own),
            Some(above) => {
                let all = self.present_within(levels - 1, &above)?;
                self.with_inherited(own, all)
            }
        }
    }

    /// The annotations that are present on an element: those that are written on it, and then those that a
    /// class inherits, the nearest first, through 64 superclasses.
    #[tactic(auto, unfolding(crate::specs::Carried::present))]
    pub fn present(&mut self, at: &ElementRef) -> Result<Vec<Carried<'a>>, NoMemory>
        ensures value { IfOk result
            (λ list. carried_in list.items ≡ present self.old (find_in self.old at.now)) }
        ensures kept { self.new ≡ self.old }
    {
        self.present_within(MAX_SUPERCLASSES, at)
    }

    /// The annotation interfaces of the annotations that are present on an element, in that order.
    pub fn types_on(&mut self, at: &ElementRef) -> Result<List<ElementRef>, NoMemory>
        ensures value { IfOk result
            (λ types. types ≡ types_of (present self.old (find_in self.old at.now))) }
        ensures kept { self.new ≡ self.old }
    {
        let list = self.present(at)?;
        types_of(self.alloc, list.as_slice())
    }
}
