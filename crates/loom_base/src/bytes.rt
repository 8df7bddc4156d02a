ghost use Rattle.std.specs.Prelude.{◌≡◌, ◌+◌, ◌≤◌, ◌++◌, length, take, drop, min, IfOk, vec_len};

use crate::NoMemory;
use std::alloc::Global;

/// So many zeros.
pub(crate) fn zeros(alloc: Global, len: usize) -> Result<Vec<u8>, NoMemory>
    ensures { IfOk result (λ zeros. vec_len zeros ≡ len) }
{
    let mut zeros = Vec::new(alloc);
    zeros.resize(len, 0)?;
    Ok(zeros)
}

/// Copies as many bytes as fit from the front of `from` into the front of the buffer.
pub(crate) fn fill_front(buf: &mut [u8], from: &[u8]) -> usize
    ensures count { result ≡ min (length buf.old) (length from.now) }
    ensures buffer { buf.new ≡ take result from.now ++ drop result buf.old }
{
    let count = buf.len().min(from.len());
    buf[..count].copy_from_slice(&from[..count]);
    count
}

/// Copies the piece to a place of the space.
pub(crate) fn put_at(space: &mut [u8], place: usize, piece: &[u8])
    requires { place + length piece.now ≤ length space.old }
    ensures { space.new
        ≡ take place space.old ++ piece.now ++ drop (place + length piece.now) space.old }
{
    space[place..place + piece.len()].copy_from_slice(piece);
}
