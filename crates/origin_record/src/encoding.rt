// Records in bytes.
ghost use Rattle.std.specs.Prelude.{◌≡◌, ◌<◌, ◌≤◌, length, IfOk, OnOk, IsErrOf};
ghost use Rattle.record_forms.specs.RecordTable.{spelling};
ghost use Rattle.origin_record.specs.Conditions.{most_bytes};
ghost use Rattle.origin_record.specs.RecordReadings.{IsRecord, IsReading, IsOnlyReading};
ghost use Rattle.origin_record.specs.declared.fault.RecordFault.TheVariants as faults;

use crate::fault::RecordFault;
use apt_base::List;
use record_forms::{Record, record_bytes};
use std::alloc::Global;

/// How many bytes a record has at most.
pub const MAX_RECORD: usize = 1_073_741_824;

/// The bytes of a record.
///
/// `TooLarge` comes exactly where these would be more than `MAX_RECORD`, unless memory runs out first, which is `Memory`.
/// Every record has its bytes, also one that no bytes are read as: what does not ascend, or a number that is out of its
/// range, is spelled as it is.
pub fn encode_record(alloc: Global, value: &Record) -> Result<List<u8>, RecordFault>
    ensures spelled { IfOk result (λ bytes. bytes ≡ spelling value.now) }
    ensures large { IsErrOf result faults.TooLarge → most_bytes < length (spelling value.now) }
    ensures undamaged { IsErrOf result faults.Damaged → ⊥ }
    ensures within { OnOk result (length (spelling value.now) ≤ most_bytes) }
    // A record that can be read is read back from these bytes, and no other one.
    ensures again { IsRecord value.now → IfOk result (λ bytes. IsReading bytes value.now) }
    ensures only { IsRecord value.now → IfOk result (λ bytes. IsOnlyReading bytes value.now) }
{
    let bytes = record_bytes(alloc, value)?;
    if bytes.len() > MAX_RECORD {
        return Err(RecordFault::TooLarge);
    }
    Ok(bytes)
}
