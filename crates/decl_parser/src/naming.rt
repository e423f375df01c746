// Whether the names of a file are short enough.
ghost use Rattle.std.specs.Prelude.{◌≡◌, ◌+◌, ◌≤◌, length};
ghost use Rattle.std.specs.List.{list_all};
ghost use Rattle.apt_base.specs.Limits.{max_name_bytes};
ghost use Rattle.decl_tree.specs.Legal.{package_start};
ghost use Rattle.decl_parser.specs.FileShown.{ordinary_view, info_view};
ghost use Rattle.decl_parser.specs.NamesShown.{member_fits_behind};
ghost use Rattle.decl_limits.specs.Units.{package_name};
ghost use Rattle.decl_limits.specs.Names.{fits_behind, type_named, is_named, info_named};

use crate::file::OrdinaryFile;
use crate::info_file::InfoFile;
use apt_base::MAX_NAME_BYTES;
use decl_grammar::{NameAt, TypeAt};
use decl_tree::{Member, TypeDecl};

// Whether no canonical name in a member is too long, where this many bytes stand before the dot behind its type's name.
#[cycle(naming)]
fn member_fits(start: usize, member: &Member) -> bool
    requires { start ≤ max_name_bytes }
    ensures { result ≡ member_fits_behind start member.now }
{
    match member {
        Member::Field(_) | Member::Method(_) | Member::Constructor(_) | Member::Constant(_) => true,
        Member::Nested(declaration) => type_fits(start + 1, declaration),
    }
}

// The same of each of some members.
#[cycle(naming)]
fn members_fit(start: usize, members: &[Member]) -> bool
    requires { start ≤ max_name_bytes }
    ensures { result ≡ list_all (member_fits_behind start) members.now }
{
    for each in members {
        if !member_fits(start, each) {
            return false;
        }
    }
    true
}

// Whether the canonical names of a type and of those in it are short enough, where this many bytes stand before its simple name.
#[cycle(naming)]
fn type_fits(start: usize, declaration: &TypeDecl) -> bool
    requires { start ≤ max_name_bytes + 1 }
    ensures { result ≡ fits_behind start declaration.now }
{
    let name = declaration.name.as_str().len();
    if name > MAX_NAME_BYTES {
        return false;
    }
    let bytes = start + name;
    if bytes > MAX_NAME_BYTES {
        return false;
    }
    members_fit(bytes, declaration.members.as_slice())
}

// The bytes before the simple names of types in this package.
fn start_in(package: &str) -> usize
    requires { length «package».now ≤ max_name_bytes }
    ensures value { result ≡ package_start «package».now }
    ensures few { result ≤ max_name_bytes + 1 }
{
    if package.is_empty() {
        return 0;
    }
    package.len() + 1
}

// Whether the names of an item of a file are short enough.
fn item_fits(start: usize, item: &Option<TypeAt>) -> bool
    requires { start ≤ max_name_bytes + 1 }
    ensures { result ≡ type_named start item.now }
{
    match item {
        Some(found) => type_fits(start, &found.declaration),
        None => true,
    }
}

// Whether the names of these types are short enough.
fn types_fit(start: usize, types: &[Option<TypeAt>]) -> bool
    requires { start ≤ max_name_bytes + 1 }
    ensures { result ≡ list_all (type_named start) types.now }
{
    for each in types {
        if !item_fits(start, each) {
            return false;
        }
    }
    true
}

// The name of a package, empty where there is none.
fn text_of(name: &Option<NameAt>) -> &str
    ensures { result.now ≡ package_name name.now }
{
    match name {
        Some(name) => name.name.as_str(),
        None => "",
    }
}

/// Whether the canonical names of an ordinary file, those of its package and of all its types, are short enough.
pub fn is_file_named(file: &OrdinaryFile) -> bool
    ensures { result ≡ is_named (ordinary_view file.now) }
{
    let package = text_of(&file.package);
    if package.len() > MAX_NAME_BYTES {
        return false;
    }
    types_fit(start_in(package), file.types.as_slice())
}

/// Whether the name of the package of a file `package-info.java` is short enough.
pub fn is_info_named(file: &InfoFile) -> bool
    ensures { result ≡ info_named (info_view file.now) }
{
    match &file.package {
        Some(text) => text.name.name.as_str().len() <= MAX_NAME_BYTES,
        None => true,
    }
}
