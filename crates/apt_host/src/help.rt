// The table of words.
ghost use Rattle.std.specs.Prelude.{◌≡◌, true};
ghost use Rattle.project_reading.specs.Verdicts.{verdict, is_sink, HasCause};
ghost use Rattle.apt_host.specs.Commands.{may_print};
ghost use Rattle.apt_host.specs.Calls.{WritesTable};

use crate::publish::of_sink;
use apt_outside::Sink;
use project_reading::Status;

/// Writes the table of words: a line for each command that there is.
pub fn help<W: Sink>(output: &mut W) -> Status
    ensures own { may_print (verdict result) ≡ true }
    ensures sink_cause { HasCause is_sink (verdict result) (W.faults output.old) (W.faults output.new) }
    ensures written { WritesTable W.Sink output.old output.new result }
{
    let table = "build [--full] [key=value]..\nserve NAME\nhelp\n";
    match output.write_all(table.as_bytes()) {
        Ok(()) => Status::Done,
        Err(fault) => of_sink(fault),
    }
}
