// The file of kinds.
ghost use Rattle.std.specs.Prelude.{◌≡◌, ◌≤◌, [], length, IfOk, OnOk};
ghost use Rattle.std.specs.Option.{option_map};
ghost use Rattle.processor_claims.specs.Lines.{Answers, first_bad, said_in};
ghost use Rattle.processor_claims.specs.Kinds.{kind_named, kind_in, kinds_of, with_kind};

use crate::LineFault;
use crate::lines::{name_in, next_said, split_byte, without_blanks};
use apt_base::{Kind, List, Name, NoMemory};
use indexmap::IndexMap;
use std::alloc::Global;
use std::marker::Model;

/// Kinds by name, in the order in which the names first came. Contracts see them as the list of the names' bytes with their kinds.
#[derive(Drop)]
struct KindsByName {
    alloc: Global,
    held: IndexMap<String, Kind>,
}

impl Model for KindsByName {
    ghost use Rattle.std.specs.Prelude.{List, ℕ, map, string_bytes};
    ghost use Rattle.apt_base.specs.declared.kinds.Kind.{Kind as TheKind};

    ghost Value = { List (List ℕ × TheKind) };

    ghost view = { λ a. map (λ entry. (string_bytes entry.0, entry.1)) a.held.entries };
}

impl KindsByName {
    fn new(alloc: Global) -> KindsByName
        ensures { result ≡ [] }
    {
        KindsByName {
            alloc,
            held: IndexMap::new(alloc),
        }
    }

    // Gives a name a kind, in place of the kind that it had.
    fn put(&mut self, name: &str, kind: Kind) -> Result<(), NoMemory>
        ensures { OnOk result (self.new ≡ with_kind self.old name.now kind) }
    {
        let key = String::from_str(self.alloc, name)?;
        self.held.insert(key, kind)?;
        Ok(())
    }

    fn into_list(self) -> Result<List<(Name, Kind)>, NoMemory>
        ensures { IfOk result (λ kinds. kinds ≡ self) }
    {
        let KindsByName { alloc, held } = self;
        let mut kinds = List::new(alloc);
        for (name, kind) in held {
            kinds.push((Name::from_string(alloc, name), kind))?;
        }
        Ok(kinds)
    }
}

// The kind that a word names, in any ASCII case.
#[tactic(auto, unfolding(crate::specs::Kinds::kind_named))]
fn kind_named(word: &[u8]) -> Option<Kind>
    ensures { result ≡ kind_named word.now }
{
    if word.eq_ignore_ascii_case(b"isolating") {
        Some(Kind::Isolating)
    } else if word.eq_ignore_ascii_case(b"aggregating") {
        Some(Kind::Aggregating)
    } else if word.eq_ignore_ascii_case(b"dynamic") {
        Some(Kind::Dynamic)
    } else {
        None
    }
}

// What a line says: a name, a comma and a kind.
#[tactic(auto, unfolding(crate::specs::Kinds::kind_in))]
fn kind_in(text: &[u8]) -> Option<(&str, Kind)>
    ensures { option_map (λ said. (said.0.now, said.1)) result ≡ kind_in text.now }
{
    let (before, behind) = split_byte(text, b',');
    match name_in(without_blanks(before)) {
        None => None,
        Some(name) => match kind_named(without_blanks(behind)) {
            None => None,
            Some(kind) => Some((name, kind)),
        },
    }
}

/// The kinds that a file declares (`META-INF/gradle/incremental.annotation.processors`): each name once, in the order in which they first come, with the kind of its last line.
///
/// The lines are those of `service_names`, but for what they say: a name, a comma, and `isolating`, `aggregating` or `dynamic` in any ASCII case. Spaces and tabs around the comma are dropped.
///
/// `Bad` comes exactly where a line says anything else, with the first such line.
pub fn kinds(alloc: Global, bytes: &[u8]) -> Result<List<(Name, Kind)>, LineFault>
    requires { length bytes.now ≤ 1048576 }
    ensures { Answers result (first_bad kind_in (said_in bytes.now)) (kinds_of bytes.now) }
{
    let mut kinds = KindsByName::new(alloc);
    let mut number = 1;
    let mut rest = bytes;
    while let Some(line) = next_said(rest, number) {
        match kind_in(line.text) {
            None => return Err(LineFault::Bad { line: line.number }),
            Some((name, kind)) => kinds.put(name, kind)?,
        }
        number = line.number + 1;
        rest = line.rest;
    }
    Ok(kinds.into_list()?)
}
