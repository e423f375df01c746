// Records of bytes.
ghost use Rattle.std.specs.Prelude.{IfOk, IsErrOf};
ghost use Rattle.origin_record.specs.RecordReadings.{IsReading, HasNoReading, IsOnlyReading};
ghost use Rattle.origin_record.specs.declared.fault.RecordFault.TheVariants as faults;

use crate::conditions::meets;
use crate::encoding::MAX_RECORD;
use crate::fault::RecordFault;
use apt_base::FormFault;
use record_forms::{Record, read_record};
use std::alloc::Global;

/// The record of which the bytes are the spelling.
///
/// `Damaged` comes exactly where they have no reading as a record: they are more than `MAX_RECORD`, they are not spelled
/// so, or the record does not meet a condition. `Memory` comes where memory ran out.
pub fn decode_record(alloc: Global, bytes: &[u8]) -> Result<Record, RecordFault>
    ensures found { IfOk result (λ value. IsReading bytes.now value) }
    ensures only { IfOk result (λ value. IsOnlyReading bytes.now value) }
    ensures damaged { IsErrOf result faults.Damaged → HasNoReading bytes.now }
    ensures fitting { IsErrOf result faults.TooLarge → ⊥ }
{
    if bytes.len() > MAX_RECORD {
        return Err(RecordFault::Damaged);
    }
    match read_record(alloc, bytes) {
        Ok(value) => {
            if meets(alloc, &value)? {
                Ok(value)
            } else {
                drop(value);
                Err(RecordFault::Damaged)
            }
        }
        Err(FormFault::Bad) => Err(RecordFault::Damaged),
        Err(FormFault::Memory) => Err(RecordFault::Memory),
    }
}
