// The elements of a table.
ghost use Rattle.std.specs.Prelude.{◌≡◌, ◌≤◌, length, option_map, None, IfOk, IfSome};
ghost use Rattle.std.specs.Option.{option_copied};
ghost use Rattle.apt_base.specs.Limits.{max_children};
ghost use Rattle.decl_elements.specs.Nodes.{OfPackage, children, down};
ghost use Rattle.decl_elements.specs.Shown.{shown_element, node_of};
ghost use Rattle.element_table.specs.TypeTable.{unit_of};
ghost use Rattle.element_table.specs.TableElements.{info_package, typed_package, root_name, node_at, element_at, children_at, modifiers_at, package_around, package_of, above, enclosing_at, canonical_at};

use crate::Table;
use crate::naming::in_package;
use crate::packages::info_package;
use apt_base::{ElementRef, List, Name, NoMemory};
use decl_elements::{Element, Place, canonical_below, place_at};
use decl_tree::{Body, Unit};
use std::alloc::Global;

// The reference of the package of a top-level type; a package has none.
fn package_around(alloc: Global, unit: &Unit) -> Result<Option<ElementRef>, NoMemory>
    ensures { IfOk result (λ at. at ≡ package_around unit.now.body unit.now) }
{
    let text = unit.text();
    match &text.body {
        Body::Declared(_) => {
            let name = in_package(alloc, text.package.as_str(), "package-info")?;
            let unit = Name::from_string(alloc, name);
            let path = List::new(alloc);
            Ok(Some(ElementRef { unit, path }))
        }
        Body::Info(_, _) => Ok(None),
    }
}

// The element at the path without its last step.
#[tactic(auto, using(crate::proofs::Paths::above_step, crate::proofs::Paths::above_none))]
fn above(alloc: Global, at: &ElementRef) -> Result<Option<ElementRef>, NoMemory>
    ensures { IfOk result (λ found. found ≡ above at.now.unit at.now.path) }
{
    match at.path.as_slice().split_last() {
        None => Ok(None),
        Some((_, front)) => {
            let path = List::from_vec(Vec::from_slice(alloc, front)?);
            let unit = at.unit.copy()?;
            Ok(Some(ElementRef { unit, path }))
        }
    }
}

// What stands at a path from a package that has no unit.
#[tactic(auto, unfolding(decl_elements::specs::Nodes::children))]
fn below_package<'a>(path: &[u16]) -> Option<Place<'a>>
    ensures value { option_map node_of result ≡ down path.now (OfPackage None) }
    ensures few { IfSome result (λ place. length (children (node_of place)) ≤ max_children) }
{
    if path.is_empty() {
        Some(Place::Package(None))
    } else {
        None
    }
}

// The canonical name of the type or the package of a unit.
fn root_name<'a>(name: &'a str, unit: &'a Unit) -> &'a str
    ensures { result.now ≡ root_name name.now unit.now unit.now.body }
{
    let text = unit.text();
    match &text.body {
        Body::Declared(_) => name,
        Body::Info(_, _) => text.package.as_str(),
    }
}

impl Table {
    // The package that stands under a name by its types alone.
    fn typed_package<'a>(&self, name: &'a str) -> Option<&'a str>
        ensures { option_copied result ≡ typed_package self.now (info_package name.now) }
    {
        let package = info_package(name)?;
        if self.has_types(package) {
            Some(package)
        } else {
            None
        }
    }

    // What stands there.
    #[tactic(auto, unfolding(crate::specs::TableElements::node_at))]
    fn place(&self, at: &ElementRef) -> Option<Place<'_>>
        ensures value { option_map node_of result ≡ node_at self.now at.now }
        ensures few { IfSome result (λ place. length (children (node_of place)) ≤ max_children) }
    {
        if let Some(unit) = self.find(&at.unit) {
            return place_at(unit, at.path.as_slice());
        }
        match self.typed_package(at.unit.as_str()) {
            Some(_) => below_package(at.path.as_slice()),
            None => None,
        }
    }

    // The package of the unit of this name, if it declares a type.
    fn package_of(&self, alloc: Global, name: &Name) -> Result<Option<ElementRef>, NoMemory>
        ensures { IfOk result (λ at. at ≡ package_of (unit_of self.now name.now)) }
    {
        match self.find(name) {
            Some(unit) => package_around(alloc, unit),
            None => Ok(None),
        }
    }

    /// What stands there, or `None` where nothing does. A package stands under the name of its unit `package-info` with the empty path, where that unit or a type of the package is in the table. It takes no memory.
    pub fn element(&self, at: &ElementRef) -> Option<Element<'_>>
        ensures { option_map shown_element result ≡ element_at self.now at.now }
    {
        Some(self.place(at)?.element())
    }

    /// The length of its child list, or `None` where nothing stands there. Of a type these are the type parameters, what its body declares in order, the constructor of a class or an enum that writes none (JLS 8.8.9, 8.9.2), and `values` and `valueOf` of an enum (JLS 8.9.3); of a method or a constructor the type parameters and the parameters; any other element has none. It takes no memory.
    pub fn children(&self, at: &ElementRef) -> Option<u16>
        ensures { result ≡ children_at self.now at.now }
    {
        Some(self.place(at)?.children())
    }

    /// Its modifiers, written and implied, or `None` where nothing stands there: a bit each for public, protected, private, abstract, default, static, final, transient, volatile, synchronized, native, strictfp, the lowest first. It takes no memory.
    pub fn modifiers(&self, at: &ElementRef) -> Option<u16>
        ensures { result ≡ modifiers_at self.now at.now }
    {
        Some(self.place(at)?.modifiers())
    }

    /// The element around it: of a top-level type its package, of a member its type, of a parameter its method or constructor, of a type parameter what declares it. `None` for a package, and where nothing stands there.
    #[tactic(auto, unfolding(crate::specs::TableElements::enclosing_at))]
    pub fn enclosing(&self, alloc: Global, at: &ElementRef) -> Result<Option<ElementRef>, NoMemory>
        ensures { IfOk result (λ around. around ≡ enclosing_at self.now at.now) }
    {
        let Some(_) = self.place(at) else {
            return Ok(None);
        };
        match above(alloc, at)? {
            Some(above) => Ok(Some(above)),
            None => self.package_of(alloc, &at.unit),
        }
    }

    /// The canonical name of a type (JLS 6.7) or of a package, that of the unnamed package being empty. `None` for any other element, and where nothing stands there.
    #[tactic(auto, unfolding(crate::specs::TableElements::canonical_at))]
    pub fn canonical(&self, alloc: Global, at: &ElementRef) -> Result<Option<Name>, NoMemory>
        ensures { IfOk result (λ name. name ≡ canonical_at self.now at.now) }
    {
        let path = at.path.as_slice();
        let name = at.unit.as_str();
        if let Some(unit) = self.find(&at.unit) {
            return canonical_below(alloc, root_name(name, unit), Place::root(unit), path);
        }
        match self.typed_package(name) {
            Some(package) => canonical_below(alloc, package, Place::Package(None), path),
            None => Ok(None),
        }
    }
}
