// Where a unit is written.
ghost use Rattle.std.specs.Prelude.{◌≡◌, IfOk};

use apt_base::{Name, NoMemory};
use decl_grammar::Lines;
use decl_tree::Shared;

/// Where a unit is written: the path of its file, and the line of each of its elements. Equal locations may share both, and the units of one file its path.
#[derive(Drop)]
pub struct UnitLocation {
    /// The path of the file that gave it.
    pub path: Shared<Name>,
    /// The lines of its elements.
    pub lines: Shared<Lines>,
}

impl UnitLocation {
    /// An equal location, which shares both. It fails only where they would have more owners than are counted.
    pub fn copy(&self) -> Result<UnitLocation, NoMemory>
        ensures { IfOk result (λ location. location ≡ self.now) }
    {
        Ok(UnitLocation {
            path: self.path.share()?,
            lines: self.lines.share()?,
        })
    }
}
