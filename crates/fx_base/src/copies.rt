//! A copy from the middle of a list into the front of a buffer, for the kinds in memory that are read from.
//!
//! A whole block moves at once. Each kind says how much it gives at most; the buffer's room and the list's end cut it.
//! The trap: the contract says what stands behind the copy too (`rest`), and a kind's model needs that to move on.
ghost use Rattle.std.specs.Prelude.{◌≡◌, ◌+◌, ◌-◌, ◌≤◌, ◌++◌, length, take, drop, min};

/// Copies what stands in `bytes` from `at` on, at most `most` bytes of it, into the front of `buf`, and gives the
/// count.
pub(crate) fn copy_from(bytes: &[u8], at: usize, most: usize, buf: &mut [u8]) -> usize
    requires { at ≤ length bytes.now }
    ensures count { result ≡ min (min most (length buf.old)) (length bytes.now - at) }
    ensures front { take result buf.new ≡ take result (drop at bytes.now) }
    ensures rest { drop at bytes.now ≡ take result buf.new ++ drop (at + result) bytes.now }
{
    let count = most.min(buf.len()).min(bytes.len() - at);
    buf[..count].copy_from_slice(&bytes[at..at + count]);
    count
}
