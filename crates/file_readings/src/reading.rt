// Reads files.
ghost use Rattle.std.specs.Prelude.{◌≤◌, length};
ghost use Rattle.apt_base.specs.Limits.{max_file_bytes};
ghost use Rattle.decl_parser.specs.Parsed.{AnswersFile};
ghost use Rattle.file_readings.specs.FileReadings.{reading_of, Parses};

use decl_parser::{ParseFault, Parsed, parse};
use std::alloc::Global;

/// The units of the file at this path with the lines of their elements, or why it gives none, as `decl_parser::parse`.
pub fn read_declarations(alloc: Global, path: &str, bytes: &[u8]) -> Result<Parsed, ParseFault>
    requires { length bytes.now ≤ max_file_bytes }
    ensures reading { Parses (reading_of path.now bytes.now) result }
    ensures answer { AnswersFile path.now bytes.now result }
{
    parse(alloc, path, bytes)
}
