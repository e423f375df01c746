// The limits of a build.
ghost use Rattle.std.specs.Prelude.{◌≡◌};
ghost use Rattle.project_units.specs.Limits.{limit_of};

use apt_base::{MAX_CHILDREN, MAX_DEPTH, MAX_FILE_BYTES, MAX_NAME_BYTES, MAX_PROCESSORS, What};

/// How much of it there may be.
pub fn limit_of(what: What) -> u32
    ensures { result ≡ limit_of what }
{
    match what {
        What::Files => 20_000,
        What::FileBytes => MAX_FILE_BYTES as u32,
        What::SourceBytes => 67_108_864,
        What::StubBytes => 16_777_216,
        What::ConfigBytes => 1_048_576,
        What::Processors => MAX_PROCESSORS as u32,
        What::Types => 50_000,
        What::Name => MAX_NAME_BYTES as u32,
        What::Children => MAX_CHILDREN as u32,
        What::Depth => MAX_DEPTH as u32,
        What::Frame => 134_217_728,
        What::Record => 1_073_741_824,
        What::Script => 67_108_864,
        What::Rounds => 64,
    }
}
