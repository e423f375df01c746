// What processors said of themselves, and rounds, both ways.
ghost use Rattle.std.specs.Prelude.{◌≡◌, ◌∷◌, [], ◌++◌, OnOk};
ghost use Rattle.apt_base.specs.Readings.{Gives};
ghost use Rattle.frame_forms.specs.FrameTable.{claim_number};
ghost use Rattle.record_forms.specs.RecordTable.{hello_in, hello, round};

use crate::in_record::InRecord;
use crate::lists::{read_ascending, write_list};
use crate::record::OldRound;
use apt_base::{Claim, FieldReader, FieldWriter, FormFault, NoMemory, write_texts};
use std::alloc::Global;
use wire_frames::{Frame, Hello, read_child_fields, tags};

fn write_claim(writer: &mut FieldWriter, claim: Claim) -> Result<(), NoMemory>
    ensures { OnOk result (writer.new ≡ writer.old ++ claim_number claim ∷ []) }
{
    writer.u8(claim as u8)
}

// The Hello in a frame, if the frame is one.
#[tactic(auto, using(crate::proofs::Hellos::other_frames))]
fn hello_in(frame: Frame) -> Option<Hello>
    ensures { result ≡ hello_in frame }
{
    match frame {
        Frame::Hello(hello) => Some(hello),
        other => {
            drop(other);
            None
        }
    }
}

impl InRecord for Hello {
    ghost form = { hello };

    #[tactic(auto, unfolding(crate::specs::RecordTable::hello, crate::specs::RecordTable::hello_next))]
    fn read(alloc: Global, reader: &mut FieldReader<'_>) -> Result<Hello, FormFault> {
        let frame = read_child_fields(alloc, tags::HELLO, reader)?;
        match hello_in(frame) {
            Some(hello) => Ok(hello),
            None => Err(FormFault::Bad),
        }
    }

    #[tactic(auto, unfolding(crate::specs::RecordTable::hello))]
    fn write(&self, writer: &mut FieldWriter) -> Result<(), NoMemory> {
        write_texts(writer, self.patterns.as_slice())?;
        write_texts(writer, self.options.as_slice())?;
        write_claim(writer, self.claim)
    }
}

impl InRecord for OldRound {
    ghost form = { round };

    #[tactic(auto, unfolding(crate::specs::RecordTable::round))]
    fn read(alloc: Global, reader: &mut FieldReader<'_>) -> Result<OldRound, FormFault> {
        let roots = read_ascending(alloc, reader)?;
        let entered = read_ascending(alloc, reader)?;
        let present = read_ascending(alloc, reader)?;
        Ok(OldRound {
            roots,
            entered,
            present,
        })
    }

    #[tactic(auto, unfolding(crate::specs::RecordTable::round))]
    fn write(&self, writer: &mut FieldWriter) -> Result<(), NoMemory> {
        write_list(writer, self.roots.as_slice())?;
        write_list(writer, self.entered.as_slice())?;
        write_list(writer, self.present.as_slice())
    }
}
