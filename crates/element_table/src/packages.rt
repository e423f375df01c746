// Packages, and the names under which they stand.
ghost use Rattle.std.specs.Prelude.{◌≡◌};
ghost use Rattle.std.specs.Option.{option_copied};
ghost use Rattle.element_table.specs.TableElements.{is_type, info_package};

use decl_tree::Body;

// The unit of the unnamed package (JLS 7.4.2).
const UNNAMED: &str = "package-info";

// What the unit of a package has behind the package's name.
const INFO: &str = ".package-info";

/// The package that may stand under a name: what is before `.package-info`, or the unnamed package. It takes no memory.
#[tactic(auto, unfolding(crate::specs::TableElements::info_package))]
pub(crate) fn info_package(name: &str) -> Option<&str>
    ensures { option_copied result ≡ info_package name.now }
{
    if name == UNNAMED {
        return Some("");
    }
    if name == INFO {
        return None;
    }
    match name.strip_suffix(INFO) {
        None => None,
        Some(package) => Some(package),
    }
}

/// Whether this is the body of a unit that declares a type.
pub(crate) fn is_type(body: &Body) -> bool
    ensures { result ≡ is_type body.now }
{
    match body {
        Body::Declared(_) => true,
        Body::Info(_, _) => false,
    }
}
