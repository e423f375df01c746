// The files of the configuration.
ghost use Rattle.std.specs.Prelude.{◌≡◌, true, false, None, Ok, IfOk, option_map};
ghost use Rattle.apt_outside.specs.Count.{Told};
ghost use Rattle.tree_store.specs.Cause.{HasConfigCause};
ghost use Rattle.tree_store.specs.Config.{path_of, within, read_of, services_of, config_of, lists_of, is_list, Answers, IsShort, AreLists, Names};
ghost use Rattle.tree_store.specs.ConfigCalls.{ReadsOne, ReadsLists};
ghost use Rattle.tree_store.specs.declared.config.ConfigFile.TheVariants as config_file;

use crate::ConfigReadFault;
use apt_base::{List, NoMemory};
use apt_outside::Tree;
use std::alloc::Global;

/// The most bytes of a file of the configuration.
const MOST_BYTES: usize = 1_048_576;

/// A file of the configuration. Each may be absent.
#[derive(Clone, Copy, Debug, PartialEq, Eq)]
pub enum ConfigFile {
    /// `apt.json`.
    Config,
    /// `res/META-INF/services/javax.annotation.processing.Processor`, which names processors.
    Services,
    /// `res/META-INF/gradle/incremental.annotation.processors`, which names the kinds of processors.
    Kinds,
}

impl ConfigFile {
    /// Its path in the tree.
    pub fn path(self) -> &'static str
        ensures { result.now ≡ path_of self }
    {
        match self {
            ConfigFile::Config => "apt.json",
            ConfigFile::Services => "res/META-INF/services/javax.annotation.processing.Processor",
            ConfigFile::Kinds => "res/META-INF/gradle/incremental.annotation.processors",
        }
    }
}

/// The file of services and the file of kinds, as they stand in the tree.
#[derive(Drop)]
pub struct RawLists {
    /// The bytes of the file of services. None where it is absent, and where it was not asked for.
    pub services: Option<List<u8>>,
    /// The bytes of the file of kinds, and None where it is absent.
    pub kinds: Option<List<u8>>,
}

impl RawLists {
    /// Equal lists. It fails only when memory runs out.
    pub fn copy(&self, alloc: Global) -> Result<RawLists, NoMemory>
        ensures { IfOk result (λ lists. lists ≡ self.now) }
    {
        Ok(RawLists {
            services: copy_bytes(alloc, &self.services)?,
            kinds: copy_bytes(alloc, &self.kinds)?,
        })
    }
}

fn copy_bytes(alloc: Global, file: &Option<List<u8>>) -> Result<Option<List<u8>>, NoMemory>
    ensures { IfOk result (λ copy. copy ≡ file.now) }
{
    match file {
        None => Ok(None),
        Some(bytes) => Ok(Some(List::from_vec(Vec::from_slice(alloc, bytes.as_slice())?))),
    }
}

// What was found of the file, which is too large where a byte past the limit was found.
fn within_limit(
    file: ConfigFile,
    found: Option<Vec<u8>>,
) -> Result<Option<List<u8>>, ConfigReadFault>
    ensures answer { result ≡ within file (option_map (λ bytes. bytes.items) found) }
    ensures short { IfOk result IsShort }
    ensures names { Names result (λ named. named ≡ file) }
{
    match found {
        None => Ok(None),
        Some(bytes) if bytes.len() > MOST_BYTES => Err(ConfigReadFault::TooLarge(file)),
        Some(bytes) => Ok(Some(List::from_vec(bytes))),
    }
}

fn read_file<T: Tree>(tree: &mut T, file: ConfigFile) -> Result<Option<List<u8>>, ConfigReadFault>
    ensures cause { HasConfigCause (T.faults tree.old) (T.faults tree.new) result }
    ensures same { Told T.tells (T.files tree.new ≡ T.files tree.old) }
    ensures answer { Told T.tells (Answers result (read_of file (T.files tree.old))) }
    ensures short { IfOk result IsShort }
    ensures names { Names result (λ named. named ≡ file) }
    ensures planned { ReadsOne T.Tree tree.old tree.new result }
{
    let found = tree.read(file.path(), MOST_BYTES)?;
    within_limit(file, found)
}

// The file of services where it is asked for; else no file is read.
fn read_services<T: Tree>(tree: &mut T, asked: bool) -> Result<Option<List<u8>>, ConfigReadFault>
    ensures cause { HasConfigCause (T.faults tree.old) (T.faults tree.new) result }
    ensures same { Told T.tells (T.files tree.new ≡ T.files tree.old) }
    ensures answer { Told T.tells (Answers result (services_of asked (T.files tree.old))) }
    ensures short { IfOk result IsShort }
    ensures unasked { asked ≡ false → result ≡ Ok None }
    ensures names { Names result (λ named. (asked ≡ true) × (named ≡ config_file.Services)) }
    ensures planned { asked ≡ true → ReadsOne T.Tree tree.old tree.new result }
    ensures unread { asked ≡ false → tree.new ≡ tree.old }
{
    if asked {
        read_file(tree, ConfigFile::Services)
    } else {
        Ok(None)
    }
}

/// The bytes of `apt.json`, and None where there is no such file.
///
/// What is given has at most 1,048,576 bytes. `TooLarge` comes exactly where the file is longer, and names no other file.
/// `Failed` comes only where the tree's count rose. The tree stays as it is, and is called once.
pub fn read_config<T: Tree>(tree: &mut T) -> Result<Option<List<u8>>, ConfigReadFault>
    ensures cause { HasConfigCause (T.faults tree.old) (T.faults tree.new) result }
    ensures same { Told T.tells (T.files tree.new ≡ T.files tree.old) }
    ensures answer { Told T.tells (Answers result (config_of (T.files tree.old))) }
    ensures short { IfOk result IsShort }
    ensures names { Names result (λ named. named ≡ config_file.Config) }
    ensures planned { ReadsOne T.Tree tree.old tree.new result }
{
    read_file(tree, ConfigFile::Config)
}

/// The bytes of the file of services, where `services` asks for it, and then those of the file of kinds; None for a file
/// that is absent.
///
/// Each file that is given has at most 1,048,576 bytes. `TooLarge` names the first of these files that is longer, and comes
/// exactly where there is one; it names no file that was not asked for.
/// `Failed` comes only where the tree's count rose. The tree stays as it is. It is called once for each file, and for none
/// behind one that was refused.
pub fn read_lists<T: Tree>(tree: &mut T, services: bool) -> Result<RawLists, ConfigReadFault>
    ensures cause { HasConfigCause (T.faults tree.old) (T.faults tree.new) result }
    ensures same { Told T.tells (T.files tree.new ≡ T.files tree.old) }
    ensures answer { Told T.tells (Answers result (lists_of services (T.files tree.old))) }
    ensures lists { IfOk result (AreLists services) }
    ensures names { Names result (λ named. is_list services named ≡ true) }
    ensures planned { ReadsLists T.Tree services tree.old tree.new result }
{
    let services = read_services(tree, services)?;
    let kinds = read_file(tree, ConfigFile::Kinds)?;
    Ok(RawLists { services, kinds })
}
