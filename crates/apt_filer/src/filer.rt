// The filer.
ghost use Rattle.std.specs.Prelude.{◌≡◌, ◌+◌, ◌≤◌, nat_le, false, [], length, IfOk, OnOk, OnErr};
ghost use Rattle.std.specs.FinMap as fin;
ghost use Rattle.apt_base.specs.Names.{with_name, with_names};
ghost use Rattle.apt_filer.specs.Filing.{taken_at_first, path_of, content_of, type_name_of, item_of, size_of, with_type, with_file, is_class, is_there, is_too_large, item_answer, answer_to, filed};

use crate::names::is_well_named;
use crate::paths::path_of;
use apt_base::{List, Name, Names, NoMemory};
use std::alloc::Global;
use std::marker::Model;
use wire_frames::{Created, Creation};

/// How many bytes the content of a creation has at most.
pub const MAX_CONTENT: usize = 8_388_608;

/// How many bytes the contents and the paths of all creations have at most, together.
pub const MAX_TOTAL: usize = 67_108_864;

/// What was created, beside the initial units and the stubs (JSR 269, `Filer`).
///
/// Contracts see what is taken, as names of types, paths and a number of bytes, and what was accepted,
/// in order.
#[derive(Drop)]
pub struct Filer {
    alloc: Global,
    types: Names,
    paths: Names,
    total: usize,
    made: Vec<Creation>,
}

impl Model for Filer {
    ghost use Rattle.std.specs.Prelude.{◌≤◌};
    ghost use Rattle.apt_filer.specs.Filing.{Filings};
    ghost use Rattle.apt_filer.specs.Held.{filings_code};

    ghost Value = { Filings };

    ghost coded = { filings_code };

    ghost view = { λ a. record { taken = record { types = a.types; paths = a.paths; total = a.total }; made = a.made.items } };

    ghost invariant = { λ a. a.total ≤ 67108864 };
}

// The names as a set.
fn set_of(alloc: Global, names: &[Name]) -> Result<Names, NoMemory>
    ensures { IfOk result (λ set. set ≡ with_names fin.empty names.now) }
{
    let mut set = Names::new(alloc);
    for name in names {
        set.insert(name.as_str())?;
    }
    Ok(set)
}

fn content_of(creation: &Creation) -> &List<u8>
    ensures { result.now ≡ content_of creation.now }
{
    match creation {
        Creation::Source { content, .. }
        | Creation::Resource { content, .. }
        | Creation::Class { content, .. } => content,
    }
}

fn is_class(creation: &Creation) -> bool
    ensures { result ≡ is_class creation.now }
{
    match creation {
        Creation::Source { .. } | Creation::Resource { .. } => false,
        Creation::Class { .. } => true,
    }
}

/// Adds the path of a creation, and for a source the name of its type, to those that are taken. Where
/// memory is out, neither is added.
fn take_names(
    types: &mut Names,
    paths: &mut Names,
    creation: &Creation,
    path: &Name,
) -> Result<(), NoMemory>
    requires absent { fin.contains_key paths.old path.now ≡ false }
    ensures types { OnOk result (types.new ≡ with_type types.old (type_name_of creation.now)) }
    ensures paths { OnOk result (paths.new ≡ with_name paths.old path.now) }
    ensures types_err { OnErr result (types.new ≡ types.old) }
    ensures paths_err { OnErr result (paths.new ≡ paths.old) }
{
    paths.insert(path.as_str())?;
    match creation {
        Creation::Source { name, .. } => match types.insert(name.as_str()) {
            Ok(()) => Ok(()),
            Err(fault) => {
                paths.remove(path.as_str());
                Err(fault)
            }
        },
        _ => Ok(()),
    }
}

impl Filer {
    /// A filer that has accepted nothing yet. `initial` names the initial units and the stubs. It fails
    /// only when memory runs out.
    pub fn new(alloc: Global, initial: &[Name]) -> Result<Filer, NoMemory>
        ensures { IfOk result (λ filer. filer ≡ record { taken = taken_at_first initial.now; made = [] }) }
    {
        Ok(Filer {
            alloc,
            types: set_of(alloc, initial)?,
            paths: Names::new(alloc),
            total: 0,
            made: Vec::new(alloc),
        })
    }

    /// What was accepted, in order.
    pub fn made(&self) -> &[Creation]
        ensures { result.now ≡ self.now.made }
    {
        &self.made
    }

    /// What was accepted, in order, in place of the filer.
    pub fn into_made(self) -> List<Creation>
        ensures { result ≡ self.made }
    {
        List::from_vec(self.made)
    }

    #[tactic(auto, unfolding(crate::specs::Filing::is_there))]
    fn is_there(&self, creation: &Creation, path: &Name) -> bool
        requires { path.now ≡ path_of creation.now }
        ensures { result ≡ is_there self.now.taken (item_of creation.now) }
    {
        if self.paths.contains(path.as_str()) {
            return true;
        }
        match creation {
            Creation::Source { name, .. } => self.types.contains(name.as_str()),
            _ => false,
        }
    }

    // Whether a content and a path of these lengths fit beside those of the others.
    fn has_room(&self, content: usize, path: usize) -> bool
        ensures { result ≡ nat_le (self.now.taken.total + (content + path)) MAX_TOTAL }
    {
        let room = MAX_TOTAL - self.total;
        content <= room && path <= room - content
    }

    #[tactic(auto, unfolding(crate::specs::Filing::is_too_large))]
    fn is_too_large(&self, creation: &Creation, path: &Name) -> bool
        requires { path.now ≡ path_of creation.now }
        ensures { result ≡ is_too_large self.now.taken (item_of creation.now) }
    {
        let content = content_of(creation).len();
        content > MAX_CONTENT || !self.has_room(content, path.as_str().len())
    }

    // What the tests answer that look at what is taken.
    #[tactic(auto, unfolding(crate::specs::Filing::item_answer))]
    fn item_answer(&self, creation: &Creation, path: &Name) -> Created
        requires { path.now ≡ path_of creation.now }
        ensures { result ≡ item_answer self.now.taken (item_of creation.now) }
    {
        if self.is_there(creation, path) {
            return Created::Exists;
        }
        if self.is_too_large(creation, path) {
            return Created::TooLarge;
        }
        Created::Accepted
    }

    #[tactic(auto, unfolding(crate::specs::Filing::answer_to))]
    fn answer_to(&self, creation: &Creation, path: &Name) -> Created
        requires { path.now ≡ path_of creation.now }
        ensures { result ≡ answer_to self.now.taken creation.now }
    {
        if is_class(creation) {
            return Created::Unsupported;
        }
        if !is_well_named(creation) {
            return Created::BadName;
        }
        self.item_answer(creation, path)
    }

    // The room for the creation is made first, so that nothing is taken back but a path.
    fn keep(&mut self, creation: Creation, path: &Name) -> Result<(), NoMemory>
        requires path { path.now ≡ path_of creation }
        requires absent { fin.contains_key self.old.taken.paths path.now ≡ false }
        requires room { self.old.taken.total + size_of (item_of creation) ≤ MAX_TOTAL }
        ensures ok { OnOk result (self.new ≡ with_file self.old creation) }
        ensures err { OnErr result (self.new ≡ self.old) }
    {
        let size = content_of(&creation).len() + path.as_str().len();
        self.made.reserve(1)?;
        take_names(&mut self.types, &mut self.paths, &creation, path)?;
        match self.made.push(creation) {
            Ok(()) => {
                self.total += size;
                Ok(())
            }
            Err(_) => unreachable!(),
        }
    }

    /// Takes a creation, and answers what became of it. The first of these holds:
    ///
    /// - `Unsupported`: it is a class file, which is not created here.
    /// - `BadName`: the name of its type, or its package or its relative name, is off the grammar
    ///   (`is_type_name`, `is_package_name`, `is_relative_name`), or its location is above 2.
    /// - `Exists`: its path is taken, or, for a source, the name of its type.
    /// - `TooLarge`: its content has more than `MAX_CONTENT` bytes, or the contents and paths of all
    ///   creations, this one among them, more than `MAX_TOTAL`.
    /// - `Accepted`: it is the last of `made` from now on, and its path is taken, and the name of its
    ///   type.
    ///
    /// Only `Accepted` changes the filer. It fails only when memory runs out, and the filer is then as
    /// it was. It takes logarithmic time in what was accepted before.
    pub fn create(&mut self, creation: Creation) -> Result<Created, NoMemory>
        ensures answer { IfOk result (λ answer. answer ≡ answer_to self.old.taken creation) }
        ensures filed { IfOk result (λ answer. self.new ≡ filed self.old creation answer) }
        ensures err { OnErr result (self.new ≡ self.old) }
    {
        let path = path_of(self.alloc, &creation)?;
        match self.answer_to(&creation, &path) {
            Created::Accepted => {
                self.keep(creation, &path)?;
                Ok(Created::Accepted)
            }
            refused => Ok(refused),
        }
    }
}
