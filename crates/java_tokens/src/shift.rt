// How far offsets in a file are beyond places in its text.
ghost use Rattle.std.specs.Prelude.{◌≡◌, leb};
ghost use Rattle.java_tokens.specs.CharsShown.{Ascend};
ghost use Rattle.java_tokens.specs.CharsShown as spec;

/// How far offsets in a file are beyond places in its text, from one place on.
#[derive(Clone, Copy)]
pub struct Shift {
    /// The place in the text from which it counts, in bytes of UTF-8 from 0.
    pub place: u32,
    /// How many bytes are to be added to a place to give the offset in the file.
    pub by: u32,
}

/// How many bytes are to be added to a place in the text to give the offset in the file. The time is logarithmic in the
/// number of shifts, which no clause says.
pub fn shift_at(shifts: &[Shift], place: u32) -> u32
    requires { Ascend shifts.now }
    ensures { result ≡ spec.shift_at shifts.now place }
{
    let begun = shifts.partition_point(
        |shift: &Shift| -> bool
            ensures { result ≡ leb shift.now.place place }
        { shift.place <= place },
    );
    if begun == 0 {
        return 0;
    }
    shifts[begun - 1].by
}
