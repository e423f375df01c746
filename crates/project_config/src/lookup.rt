// What the files say of a processor.
ghost use Rattle.std.specs.Prelude.{◌≡◌};
ghost use Rattle.std.specs.Option.{option_copied};
ghost use Rattle.project_config.specs.Discovery.{row_named, kind_of};

use crate::ProcessorRow;
use apt_base::{Kind, Name};

/// The row of a name.
pub(crate) fn row_named<'a>(rows: &'a [ProcessorRow], name: &str) -> Option<&'a ProcessorRow>
    ensures { option_copied result ≡ row_named name.now rows.now }
{
    for row in rows {
        if row.name.as_str() == name {
            return Some(row);
        }
    }
    None
}

/// The kind that is declared of a name, or `Undeclared`.
pub(crate) fn kind_of(kinds: &[(Name, Kind)], name: &str) -> Kind
    ensures { result ≡ kind_of name.now kinds.now }
{
    for entry in kinds {
        if entry.0.as_str() == name {
            return entry.1;
        }
    }
    Kind::Undeclared
}
