// The keys by which members of one name are found.
ghost use Rattle.std.specs.Prelude.{◌≡◌, ◌++◌, IfOk, string_bytes};
ghost use Rattle.type_elements.specs.ShownNames.{shown_name};
ghost use Rattle.type_listing.specs.Namesakes as namesakes;

use apt_base::{ElementRef, NoMemory};
use element_table::Table;
use std::alloc::Global;
use type_elements::{MemberName, member_name};

// A name behind a letter.
fn lettered(alloc: Global, letter: &str, name: &str) -> Result<String, NoMemory>
    ensures { IfOk result (λ key. string_bytes key ≡ letter.now ++ name.now) }
{
    let mut key = String::from_str(alloc, letter)?;
    key.push_str(name)?;
    Ok(key)
}

fn name_key(alloc: Global, name: MemberName<'_>) -> Result<String, NoMemory>
    ensures { IfOk result (λ key. string_bytes key ≡ namesakes.name_key (shown_name name.entry)) }
{
    match name {
        MemberName::Field(name) => lettered(alloc, "f", name),
        MemberName::Nested(name) => lettered(alloc, "t", name),
        MemberName::Method(name) => lettered(alloc, "m", name),
        MemberName::Constructor => lettered(alloc, "c", ""),
        MemberName::Nothing => lettered(alloc, "", ""),
    }
}

/// The key of an element: what it goes by as a member, with a letter in front that tells fields, types, methods and constructors apart.
pub(crate) fn key_of(alloc: Global, table: &Table, at: &ElementRef) -> Result<String, NoMemory>
    ensures { IfOk result (λ key. string_bytes key ≡ namesakes.key_of table.now at.now) }
{
    name_key(alloc, member_name(table, at))
}
