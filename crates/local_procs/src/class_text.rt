// The text of a class that a processor creates beside another one.
ghost use Rattle.std.specs.Prelude.{◌≡◌, [], ◌++◌, OnOk, IfOk};
ghost use Rattle.local_procs.specs.ClassText.{is_class, package_of, package_line, source_of};

use apt_base::{ElementRef, List, Name, NoMemory};
use std::alloc::Global;
use std::marker::Model;
use wire_frames::{Creation, Frame, Info};

/// A text that is written part by part.
#[derive(Drop)]
pub(crate) struct Text {
    written: Vec<u8>,
}

impl Model for Text {
    ghost use Rattle.std.specs.Prelude.{List, ℕ};

    ghost Value = { List ℕ };

    ghost view = { λ t. t.written.items };
}

impl Text {
    /// A text of nothing yet. It takes no memory.
    pub(crate) fn new(alloc: Global) -> Text
        ensures { result ≡ [] }
    {
        Text {
            written: Vec::new(alloc),
        }
    }

    /// One part more.
    pub(crate) fn add(&mut self, part: &str) -> Result<(), NoMemory>
        ensures { OnOk result (self.new ≡ self.old ++ part.now) }
    {
        self.add_bytes(part.as_bytes())
    }

    fn add_bytes(&mut self, part: &[u8]) -> Result<(), NoMemory>
        ensures { OnOk result (self.new ≡ self.old ++ part.now) }
    {
        self.written.extend_from_slice(part)?;
        Ok(())
    }

    /// What was written. It takes no memory.
    pub(crate) fn into_bytes(self) -> List<u8>
        ensures { result ≡ self }
    {
        let Text { written } = self;
        List::from_vec(written)
    }
}

/// Whether a kind is that of a class.
pub(crate) fn is_class(kind: u8) -> bool
    ensures { result ≡ is_class kind }
{
    kind == 2
}

fn package_of(info: &Info) -> &[u8]
    ensures { result.now ≡ package_of info.now }
{
    let canonical = info.canonical.as_str().as_bytes();
    let count = canonical
        .len()
        .saturating_sub(info.simple.as_str().len())
        .saturating_sub(1);
    &canonical[..count]
}

/// A text that begins with the package of a class.
pub(crate) fn in_package_of(alloc: Global, info: &Info) -> Result<Text, NoMemory>
    ensures { IfOk result (λ text. text ≡ package_line (package_of info.now)) }
{
    let mut text = Text::new(alloc);
    let name = package_of(info);
    if name.is_empty() {
        return Ok(text);
    }
    text.add("package ")?;
    text.add_bytes(name)?;
    text.add(";\n")?;
    Ok(text)
}

/// A source file of an element.
pub(crate) fn source_of(
    alloc: Global,
    element: &ElementRef,
    name: Name,
    content: List<u8>,
) -> Result<Frame, NoMemory>
    ensures { IfOk result (λ frame. frame ≡ source_of element.now name content) }
{
    let mut origins = List::new(alloc);
    origins.push(element.copy(alloc)?)?;
    Ok(Frame::Create(Creation::Source {
        name,
        content,
        origins,
    }))
}
