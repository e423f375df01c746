// Makes the units of a file, with the lines of their elements.
ghost use Rattle.std.specs.Prelude.{◌≡◌, ◌++◌, true, List, IfOk};
ghost use Rattle.decl_tree.specs.Legal.{is_legal};
ghost use Rattle.decl_parser.specs.FileShown.{ordinary_view, info_view, package_seen};
ghost use Rattle.decl_limits.specs.Units.{package_name, names_in, unit_of, units_one, lines_one, units_from, lines_from, units_of, info_of, package_line, info_units};
ghost use Rattle.decl_limits.specs.Limits.{AllLegal};
ghost use Rattle.decl_parser.specs.Parsed.{UnitsLegal, UnitLegal};

use crate::file::OrdinaryFile;
use crate::info_file::{InfoFile, PackageText};
use apt_base::{List, Name, NoMemory};
use decl_grammar::{Lines, NameAt, TypeAt};
use decl_tree::{Body, Import, Shared, TypeDecl, Unit, UnitText};
use std::alloc::Global;

// The simple names of the types.
fn names_of(alloc: Global, types: &[Option<TypeAt>]) -> Result<Vec<Name>, NoMemory>
    ensures { IfOk result (λ v. v.items ≡ names_in types.now) }
{
    let mut all = Vec::new(alloc);
    let mut rest = types;
    'row: while let [next, after @ ..] = rest {
        if let Some(declaration) = next {
            all.push(declaration.declaration.name.copy()?)?;
        }
        rest = after;
    }
    Ok(all)
}

// The name of a package, empty for the unnamed one.
fn package_of_name(alloc: Global, name: &Option<NameAt>) -> Result<Name, NoMemory>
    ensures { IfOk result (λ text. text ≡ package_name name.now) }
{
    match name {
        None => Name::new(alloc, ""),
        Some(name) => name.name.copy(),
    }
}

// The unit of one type.
fn unit(
    alloc: Global,
    package: &Name,
    imports: &Shared<List<Import>>,
    siblings: &Shared<List<Name>>,
    declaration: TypeDecl,
) -> Result<Unit, NoMemory>
    requires { is_legal (unit_of «package».now imports.now siblings.now declaration) ≡ true }
    ensures { IfOk result (λ u. u ≡ unit_of «package».now imports.now siblings.now declaration) }
{
    let text = UnitText {
        package: package.copy()?,
        imports: imports.share()?,
        siblings: siblings.share()?,
        body: Body::Declared(declaration),
    };
    Unit::new(alloc, text)
}

// Puts the unit of a type of this package and its lines behind others, and nothing for a `;`.
fn add_unit(
    alloc: Global,
    all: &mut List<Unit>,
    lines: &mut List<Lines>,
    home: &Name,
    imports: &Shared<List<Import>>,
    siblings: &Shared<List<Name>>,
    item: Option<TypeAt>,
) -> Result<(), NoMemory>
    requires { UnitLegal home.now imports.now siblings.now item }
    ensures units { IfOk result (λ u. all.new ≡ all.old ++ units_one home.now imports.now siblings.now item) }
    ensures lines { IfOk result (λ u. lines.new ≡ lines.old ++ lines_one item) }
{
    match item {
        Some(found) => {
            let TypeAt {
                declaration,
                lines: inside,
            } = found;
            all.push(unit(alloc, home, imports, siblings, declaration)?)?;
            lines.push(inside)?;
            Ok(())
        }
        None => Ok(()),
    }
}

// The units of some types, and their lines.
fn units_in(
    alloc: Global,
    package: &Name,
    imports: &Shared<List<Import>>,
    siblings: &Shared<List<Name>>,
    types: List<Option<TypeAt>>,
) -> Result<(List<Unit>, List<Lines>), NoMemory>
    requires { UnitsLegal «package».now imports.now siblings.now types }
    ensures units { IfOk result (λ x. x.0 ≡ units_from «package».now imports.now siblings.now types) }
    ensures lines { IfOk result (λ x. x.1 ≡ lines_from types) }
{
    let mut all = List::new(alloc);
    let mut lines = List::new(alloc);
    for each in types.into_vec() {
        add_unit(
            alloc, &mut all, &mut lines, package, imports, siblings, each,
        )?;
    }
    Ok((all, lines))
}

/// The units of an ordinary compilation unit, one for each of its types, in their order, and the lines of each.
pub fn ordinary_declared(
    alloc: Global,
    file: OrdinaryFile,
) -> Result<(List<Unit>, List<Lines>), NoMemory>
    requires { AllLegal (units_of (ordinary_view file)).0 }
    ensures { IfOk result (λ x. x ≡ units_of (ordinary_view file)) }
{
    let OrdinaryFile {
        package,
        imports,
        types,
    } = file;
    let package = package_of_name(alloc, &package)?;
    let imports = Shared::new(alloc, imports)?;
    let siblings = Shared::new(alloc, List::from_vec(names_of(alloc, types.as_slice())?))?;
    units_in(alloc, &package, &imports, &siblings, types)
}

// The unit of a file `package-info.java`.
fn info_unit(alloc: Global, file: InfoFile) -> Result<Unit, NoMemory>
    requires { is_legal (info_of (package_seen file.«package») file.imports) ≡ true }
    ensures { IfOk result (λ u. u ≡ info_of (package_seen file.«package») file.imports) }
{
    let InfoFile { package, imports } = file;
    let imports = Shared::new(alloc, imports)?;
    let siblings = Shared::new(alloc, List::new(alloc))?;
    match package {
        Some(text) => {
            let PackageText {
                doc,
                annotations,
                name,
            } = text;
            let NameAt { name, .. } = name;
            let text = UnitText {
                package: name,
                imports,
                siblings,
                body: Body::Info(annotations, doc),
            };
            Unit::new(alloc, text)
        }
        None => {
            let text = UnitText {
                package: Name::new(alloc, "")?,
                imports,
                siblings,
                body: Body::Info(List::new(alloc), None),
            };
            Unit::new(alloc, text)
        }
    }
}

// The line of the `package`, or the first line where there is none.
fn line_of_package(file: &InfoFile) -> u32
    ensures { result ≡ package_line (package_seen file.now.«package») }
{
    match &file.package {
        Some(text) => text.name.line,
        None => 1,
    }
}

/// The unit of a file `package-info.java` as the only one, and its line.
pub fn info_declared(alloc: Global, file: InfoFile) -> Result<(List<Unit>, List<Lines>), NoMemory>
    requires { AllLegal (info_units (info_view file)).0 }
    ensures { IfOk result (λ x. x ≡ info_units (info_view file)) }
{
    let line = line_of_package(&file);
    let children = List::new(alloc);
    let mut lines = List::new(alloc);
    lines.push(Lines { line, children })?;
    let mut units = List::new(alloc);
    units.push(info_unit(alloc, file)?)?;
    Ok((units, lines))
}
