// The file that names the processors.
ghost use Rattle.std.specs.Prelude.{◌≤◌, length};
ghost use Rattle.processor_claims.specs.Lines.{Answers, first_bad, said_in, name_in};
ghost use Rattle.processor_claims.specs.Services.{names_of};

use crate::LineFault;
use crate::lines::{name_in, next_said};
use crate::ordered_names::OrderedNames;
use apt_base::{List, Name};
use std::alloc::Global;

/// The processors that a file of services names (`META-INF/services/javax.annotation.processing.Processor`), each once, in the order in which they first come.
///
/// A line ends at CR LF, CR or LF. `#` begins a comment, in which each byte may stand, and the spaces and tabs around what is left are dropped. Empty lines are passed over; any other line is a name, identifiers joined by dots.
///
/// `Bad` comes exactly where a line is neither, with the first such line.
pub fn service_names(alloc: Global, bytes: &[u8]) -> Result<List<Name>, LineFault>
    requires { length bytes.now ≤ 1048576 }
    ensures { Answers result (first_bad name_in (said_in bytes.now)) (names_of bytes.now) }
{
    let mut names = OrderedNames::new(alloc);
    let mut number = 1;
    let mut rest = bytes;
    while let Some(line) = next_said(rest, number) {
        match name_in(line.text) {
            None => return Err(LineFault::Bad { line: line.number }),
            Some(name) => {
                names.add(name)?;
            }
        }
        number = line.number + 1;
        rest = line.rest;
    }
    Ok(names.into_list()?)
}
