// The access of an element, by the modifiers that are written or implied.
ghost use Rattle.std.specs.Prelude.{◌≡◌};
ghost use Rattle.type_elements.specs.MemberElements as elements;

use apt_base::ElementRef;
use element_table::Table;

const PRIVATE: u16 = 4;
// Public, protected and private.
const ACCESS: u16 = 7;

const STATIC: u16 = 32;

// Whether it has one of these.
fn has_modifier(table: &Table, wanted: u16, at: &ElementRef) -> bool
    ensures { result ≡ elements.has_modifier table.now wanted at.now }
{
    let modifiers = table.modifiers(at).unwrap_or(0);
    modifiers & wanted != 0
}

/// Whether it is static, as written or implied: a member type that is no class, each type and field in an interface, an enum constant, and `values` and `valueOf` of an enum are (JLS 8.5.1, 8.9, 9.3, 9.5).
pub fn is_static(table: &Table, at: &ElementRef) -> bool
    ensures { result ≡ elements.is_static table.now at.now }
{
    has_modifier(table, STATIC, at)
}

/// Whether it is private, as written or implied: each constructor of an enum is (JLS 8.9.2).
pub fn is_private(table: &Table, at: &ElementRef) -> bool
    ensures { result ≡ elements.is_private table.now at.now }
{
    has_modifier(table, PRIVATE, at)
}

// The package of its unit.
fn package_name<'a>(table: &'a Table, at: &ElementRef) -> &'a str
    ensures { result.now ≡ elements.package_name table.now at.now }
{
    match table.find(&at.unit) {
        None => "",
        Some(unit) => unit.text().package.as_str(),
    }
}

/// Whether the second one is public, protected or private, or is of the package of the first one: what is none of these is for its package alone (JLS 6.6.1). The modifiers are the written and the implied ones.
pub fn package_allows(table: &Table, other: &ElementRef, at: &ElementRef) -> bool
    ensures { result ≡ elements.package_allows table.now other.now at.now }
{
    has_modifier(table, ACCESS, at) || package_name(table, other) == package_name(table, at)
}
