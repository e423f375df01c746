// The canonical names of units.
ghost use Rattle.std.specs.Prelude.{◌≡◌, IfOk, string_bytes};
ghost use Rattle.element_table.specs.UnitNames.{in_package, simple_name, unit_name};

use apt_base::{Name, NoMemory};
use decl_tree::{Body, Unit};
use std::alloc::Global;

/// A simple name behind a package's name and a dot; nothing stands before it in the unnamed package.
pub fn in_package(alloc: Global, package: &str, name: &str) -> Result<String, NoMemory>
    ensures { IfOk result (λ text. string_bytes text ≡ in_package «package».now name.now) }
{
    if package.is_empty() {
        return Ok(String::from_str(alloc, name)?);
    }
    let mut text = String::from_str(alloc, package)?;
    text.push('.')?;
    text.push_str(name)?;
    Ok(text)
}

fn simple_name(body: &Body) -> &str
    ensures { result.now ≡ simple_name body.now }
{
    match body {
        Body::Declared(declaration) => declaration.name.as_str(),
        Body::Info(_, _) => "package-info",
    }
}

/// The canonical name of a unit as a text.
#[tactic(auto, unfolding(crate::specs::UnitNames::unit_name))]
pub(crate) fn name_of(alloc: Global, unit: &Unit) -> Result<String, NoMemory>
    ensures { IfOk result (λ text. string_bytes text ≡ unit_name unit.now) }
{
    let text = unit.text();
    in_package(alloc, text.package.as_str(), simple_name(&text.body))
}

/// The canonical name of a unit: that of its top-level type (JLS 6.7), or `package-info` in its package.
pub fn unit_name(alloc: Global, unit: &Unit) -> Result<Name, NoMemory>
    ensures { IfOk result (λ name. name ≡ unit_name unit.now) }
{
    Ok(Name::from_string(alloc, name_of(alloc, unit)?))
}
