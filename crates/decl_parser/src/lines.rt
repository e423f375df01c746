// The lines of elements.
ghost use Rattle.std.specs.Prelude.{◌≡◌, ◌∷◌, bytes_eq};
ghost use Rattle.element_table.specs.UnitNames.{in_package, simple_name, unit_name};
ghost use Rattle.decl_parser.specs.Lines.{line_in};

use crate::parsing::Parsed;
use apt_base::ElementRef;
use decl_grammar::Lines;
use decl_tree::{Body, Unit, UnitText};
use unit_locations::line_at;

// The simple name of what a unit declares.
fn simple_name_of(body: &Body) -> &str
    ensures { result.now ≡ simple_name body.now }
{
    match body {
        Body::Declared(declaration) => declaration.name.as_str(),
        Body::Info(_, _) => "package-info",
    }
}

// Whether a text is a dot and then this name.
fn is_dotted(text: &str, name: &str) -> bool
    ensures { result ≡ bytes_eq (46 ∷ name.now) text.now }
{
    match text.strip_prefix(".") {
        Some(last) => name == last,
        None => false,
    }
}

// Whether a text is this simple name in this package.
fn is_in_package(package: &str, simple: &str, text: &str) -> bool
    ensures { result ≡ bytes_eq (in_package «package».now simple.now) text.now }
{
    if package.is_empty() {
        return simple == text;
    }
    match text.strip_prefix(package) {
        Some(rest) => is_dotted(rest, simple),
        None => false,
    }
}

// Whether a unit has this canonical name.
#[tactic(auto, unfolding(element_table::specs::UnitNames::unit_name))]
fn has_name(unit: &UnitText, name: &str) -> bool
    ensures { result ≡ bytes_eq (unit_name unit.now) name.now }
{
    is_in_package(unit.package.as_str(), simple_name_of(&unit.body), name)
}

// The line of what stands at a path of the first of these units that has this name.
fn line_among(units: &[Unit], lines: &[Lines], name: &str, path: &[u16]) -> Option<u32>
    ensures { result ≡ line_in units.now lines.now name.now path.now }
{
    let mut rest = units;
    let mut behind = lines;
    'row: while let [unit, units_after @ ..] = rest {
        let [first, lines_after @ ..] = behind else {
            return None;
        };
        if has_name(unit.text(), name) {
            return line_at(unit, first, path);
        }
        rest = units_after;
        behind = lines_after;
    }
    None
}

/// The line of an element's name; of an element that the language adds to a type, that of the type's name; and of a package, that of its `package`, or 1 where its file has none.
/// `None` exactly where the element is not one of these units. It takes no memory.
pub fn line_of(parsed: &Parsed, element: &ElementRef) -> Option<u32>
    ensures { result ≡ line_in parsed.now.units parsed.now.lines element.now.unit element.now.path }
{
    line_among(
        parsed.units.as_slice(),
        parsed.lines.as_slice(),
        element.unit.as_str(),
        element.path.as_slice(),
    )
}
