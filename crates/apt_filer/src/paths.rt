// The paths of creations.
ghost use Rattle.std.specs.Prelude.{◌≡◌, ◌++◌, string_bytes, IfOk, OnOk};
ghost use Rattle.apt_filer.specs.Filing.{folders_of, package_folders, location_folder, source_path, resource_path, path_of};

use apt_base::{Name, NoMemory, split_dot};
use std::alloc::Global;
use wire_frames::Creation;

fn push_folders(path: &mut String, name: &str) -> Result<(), NoMemory>
    ensures { OnOk result (string_bytes path.new ≡ string_bytes path.old ++ folders_of name.now) }
{
    let mut rest = name;
    while let Some((first, after)) = split_dot(rest) {
        path.push_str(first)?;
        path.push('/')?;
        rest = after;
    }
    path.push_str(rest)?;
    Ok(())
}

fn push_package(path: &mut String, package: &str) -> Result<(), NoMemory>
    ensures { OnOk result
        (string_bytes path.new ≡ string_bytes path.old ++ package_folders «package».now) }
{
    if package == "" {
        return Ok(());
    }
    push_folders(path, package)?;
    path.push('/')?;
    Ok(())
}

fn location_folder(location: u8) -> &'static str
    ensures { result.now ≡ location_folder location }
{
    match location {
        0 => "CLASS_OUTPUT/",
        1 => "SOURCE_OUTPUT/",
        _ => "NATIVE_HEADER_OUTPUT/",
    }
}

fn source_path(alloc: Global, name: &str) -> Result<String, NoMemory>
    ensures { IfOk result (λ path. string_bytes path ≡ source_path name.now) }
{
    let mut path = String::from_str(alloc, "SOURCE_OUTPUT/")?;
    push_folders(&mut path, name)?;
    path.push_str(".java")?;
    Ok(path)
}

fn resource_path(
    alloc: Global,
    location: u8,
    package: &str,
    relative: &str,
) -> Result<String, NoMemory>
    ensures { IfOk result (λ path. string_bytes path ≡ resource_path location «package».now relative.now) }
{
    let mut path = String::from_str(alloc, location_folder(location))?;
    push_package(&mut path, package)?;
    path.push_str(relative)?;
    Ok(path)
}

/// The path of a creation below the output: `SOURCE_OUTPUT/a/b/C.java` of the source `a.b.C`; the
/// location, the package as folders and the relative name of a resource, joined by `/`. A class file
/// has none: its path is empty. It fails only when memory runs out.
#[tactic(auto, unfolding(crate::specs::Filing::path_of))]
pub fn path_text(alloc: Global, creation: &Creation) -> Result<String, NoMemory>
    ensures { IfOk result (λ path. string_bytes path ≡ path_of creation.now) }
{
    match creation {
        Creation::Source { name, .. } => source_path(alloc, name.as_str()),
        Creation::Resource {
            location,
            package,
            relative,
            ..
        } => resource_path(alloc, *location, package.as_str(), relative.as_str()),
        Creation::Class { .. } => Ok(String::new(alloc)),
    }
}

/// The same path as a name. It fails only when memory runs out.
pub fn path_of(alloc: Global, creation: &Creation) -> Result<Name, NoMemory>
    ensures { IfOk result (λ path. path ≡ path_of creation.now) }
{
    Ok(Name::from_string(alloc, path_text(alloc, creation)?))
}
