ghost use Rattle.std.specs.Prelude.{◌≡◌, ◌+◌, ◌-◌, ◌^◌, ◌<◌, ◌≤◌, ℕ, List as Items, Option, IfOk, IsErrOf};
ghost use Rattle.std.specs.Io.{ReadsAtMost};
ghost use Rattle.std.specs.Io.KnownBytes.{ReadConsumes};
ghost use Rattle.loom_base.specs.Causes.{HasCause, Rose, next_count};
ghost use Rattle.loom_base.specs.Streams.{ReadsAll, Takes, TakesAtMost};

use crate::bytes::zeros;
use crate::{Failed, List, ReadStop};
use std::alloc::Global;

/// Where bytes come from.
pub trait Source {
    /// The bytes that are left, where the source tells them.
    ghost left: { Self → Option (Items ℕ) };

    /// How often a read has failed; it never falls, and stops at the last value of a u64.
    ghost faults: { Self → ℕ };

    /// Moves bytes from the front of what is left into the front of the buffer, and answers how
    /// many. It is 0 only at the end or where the buffer is empty. After a failure nothing was
    /// taken, and the count of faults is one more.
    fn read(&mut self, buf: &mut [u8]) -> Result<usize, Failed>
        ensures bound { ReadsAtMost result buf.new }
        ensures bytes { ReadConsumes (left self.old) (left self.new) result buf.new }
        ensures cause { HasCause (faults self.old) (faults self.new) result };
}

/// How many bytes are asked for at once.
const BLOCK: usize = 64 * 1024;

/// Reads all that is left, where that is at most `limit` bytes.
///
/// It takes at most one byte more than the limit, and stops at the first read that fails.
pub fn read_all<S: Source>(alloc: Global, source: &mut S, limit: u64) -> Result<List<u8>, ReadStop>
    requires { limit < 2 ^ 64 - 1 }
    ensures all { IfOk result (λ bytes.
        ReadsAll (S.left source.old) (S.left source.new) limit bytes) }
    ensures too_long { IsErrOf result ReadStop.TooLong
        → Takes (S.left source.old) (S.left source.new) (limit + 1) }
    ensures fault { IsErrOf result ReadStop.Fault → Rose (S.faults source.old) (S.faults source.new)
        × TakesAtMost (S.left source.old) (S.left source.new) limit }
    ensures at_most { TakesAtMost (S.left source.old) (S.left source.new) (limit + 1) }
    ensures later { S.faults source.old ≤ S.faults source.new }
    ensures counted { IsErrOf result ReadStop.Fault
        → S.faults source.new ≡ next_count (S.faults source.old) }
    ensures steady { ¬ IsErrOf result ReadStop.Fault
        → S.faults source.new ≡ S.faults source.old }
{
    let most = limit as usize + 1;
    let mut storage = zeros(alloc, BLOCK)?;
    let block = storage.as_mut_slice();
    let mut bytes = Vec::new(alloc);
    'reading: while bytes.len() < most {
        let room = block.len().min(most - bytes.len());
        let count = source.read(&mut block[..room])?;
        if count == 0 {
            return Ok(List::from_vec(bytes));
        }
        bytes.extend_from_slice(&block[..count])?;
    }
    Err(ReadStop::TooLong)
}
