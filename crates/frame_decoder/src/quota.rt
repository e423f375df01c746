// What the values of a frame may still take of memory.
ghost use Rattle.std.specs.Prelude.{◌≡◌, ◌+◌, ◌*◌, ◌-◌, ◌^◌, ◌<◌, [], max, min, IfOk, OnErr, OnOk};

use apt_base::{Boxed, List, NoMemory};
use std::alloc::Global;
use std::marker::Model;

// What the values of a frame may take for each of its bytes, and what those of a short one may take.
const OF_BYTE: usize = 12;

const LEAST: usize = 1 << 20;

/// What a block takes beside its bytes, at most: the allocator rounds them up, and keeps some for itself.
pub(crate) const OF_BLOCK: usize = 32;

/// What the values of a frame may still take, in bytes. Contracts see how many are left.
#[derive(Drop)]
pub(crate) struct Quota {
    left: usize,
}

impl Model for Quota {
    ghost use Rattle.std.specs.Prelude.{ℕ};

    ghost Value = { ℕ };

    ghost view = { λ a. a.left };
}

impl Quota {
    /// What the values of a frame of this many bytes may take.
    pub(crate) fn of_frame(length: usize) -> Quota
        ensures { result ≡ max (min (length * 12) (2 ^ 64 - 1)) 1048576 }
    {
        Quota {
            left: length.saturating_mul(OF_BYTE).max(LEAST),
        }
    }

    /// Takes this many bytes; out of memory where fewer are left, which then stay.
    pub(crate) fn take(&mut self, bytes: usize) -> Result<(), NoMemory>
        ensures ok { OnOk result (self.new + bytes ≡ self.old) }
        ensures few { OnErr result (self.old < bytes) }
        ensures err { OnErr result (self.new ≡ self.old) }
    {
        if bytes > self.left {
            return Err(NoMemory);
        }
        self.left -= bytes;
        Ok(())
    }
}

/// An empty list that has room for this many items of this many bytes, but for no more items than bytes are left to
/// read, since one is spelled by a byte at least. The room is taken from the quota first.
pub(crate) fn list_with_room<T>(
    alloc: Global,
    count: u32,
    left: usize,
    size: usize,
    quota: &mut Quota,
) -> Result<List<T>, NoMemory>
    ensures { IfOk result (λ list. list ≡ []) }
{
    let room = (count as usize).min(left);
    if room == 0 {
        return Ok(List::new(alloc));
    }
    quota.take(room.saturating_mul(size).saturating_add(OF_BLOCK))?;
    Ok(List::from_vec(Vec::with_capacity(alloc, room)?))
}

/// The value, which has this many bytes, in a box of its own, which is taken from the quota first.
pub(crate) fn boxed<T: Drop>(
    alloc: Global,
    value: T,
    size: usize,
    quota: &mut Quota,
) -> Result<Boxed<T>, NoMemory>
    ensures { IfOk result (λ boxed. boxed ≡ value) }
{
    quota.take(size.saturating_add(OF_BLOCK))?;
    Boxed::new(alloc, value)
}
