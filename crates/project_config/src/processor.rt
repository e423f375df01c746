// A processor of a project.
ghost use Rattle.std.specs.Prelude.{◌≡◌, IfOk};

use apt_base::{Kind, List, Name, NoMemory, copy_names};
use std::alloc::Global;

/// A processor of a project: how it is started, and of which kind it is.
#[derive(Drop)]
pub struct Processor {
    /// The name of the processor.
    pub name: Name,
    /// The words of its command: a program and its arguments, at least one.
    pub command: List<Name>,
    /// The text that stands for the version of the program.
    pub version: Name,
    /// The kind that the file of kinds declares, or `Undeclared`.
    pub kind: Kind,
}

impl Processor {
    /// An equal processor.
    pub fn copy(&self, alloc: Global) -> Result<Processor, NoMemory>
        ensures { IfOk result (λ processor. processor ≡ self.now) }
    {
        Ok(Processor {
            name: self.name.copy()?,
            command: copy_names(alloc, self.command.as_slice())?,
            version: self.version.copy()?,
            kind: self.kind,
        })
    }
}

/// Equal processors in the same order.
pub(crate) fn copy_processors(
    alloc: Global,
    processors: &[Processor],
) -> Result<List<Processor>, NoMemory>
    ensures { IfOk result (λ list. list ≡ processors.now) }
{
    let mut copies = List::new(alloc);
    for each in processors {
        copies.push(each.copy(alloc)?)?;
    }
    Ok(copies)
}
