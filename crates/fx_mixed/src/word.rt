//! One word among bytes.

ghost use Rattle.std.specs.Prelude.{◌≡◌, ◌+◌, ◌*◌, ◌/◌, ◌^◌, ◌-◌, ◌<◌, ◌≤◌, ◌++◌, pos, length, take, drop, Contains};
ghost use Rattle.fx_model.specs.LawfulProgram.{widths};
ghost use Rattle.fx_model.specs.Machine.{IsWord};
ghost use Rattle.fx_statements.specs.RustMeaning.{wrapped};
ghost use Rattle.fx_mixed.specs.Packed.{first_word, packed_word, two_complement};

use crate::bytes::{number, put_bytes};
use fx_statements::wrapped_law;
use fx_word::ends_at;

// The greatest number without sign of so many bits.
fn greatest(width: u32) -> u64
    requires { Contains widths width }
    ensures { result ≡ 2 ^ width - 1 }
{
    let (_, most) = ends_at(width);
    2 * most as u64 + 1
}

// A number of so many bits, taken as signed.
fn signed(width: u32, u: u64) -> i64
    requires known { Contains widths width }
    requires short { u < 2 ^ width }
    ensures { result ≡ wrapped width (pos u) }
{
    wrapped_law();
    let (_, most) = ends_at(width);
    if u <= most as u64 {
        u as i64
    } else {
        -1 - (greatest(width) - u) as i64
    }
}

// The number without sign that stands for a word.
fn complement(width: u32, w: i64) -> u64
    requires known { Contains widths width }
    requires word { IsWord width w }
    ensures { result ≡ two_complement width w }
{
    if w >= 0 {
        w as u64
    } else {
        greatest(width) - (-1 - w) as u64
    }
}

/// The word of `width` bits that begins at byte `at`.
pub fn read_word(bytes: &[u8], width: u32, at: usize) -> i64
    requires known { Contains widths width }
    requires room { at + width / 8 ≤ length bytes.now }
    ensures { result ≡ first_word width (drop at bytes.now) }
{
    let size = (width / 8) as usize;
    signed(width, number(&bytes[at..at + size]))
}

/// Writes a word of `width` bits over the bytes from byte `at` on.
pub fn write_word(bytes: &mut [u8], width: u32, at: usize, w: i64)
    requires known { Contains widths width }
    requires room { at + width / 8 ≤ length bytes.old }
    requires word { IsWord width w }
    ensures { bytes.new ≡ take at bytes.old ++ packed_word width w ++ drop (at + width / 8) bytes.old }
{
    let size = (width / 8) as usize;
    put_bytes(&mut bytes[at..at + size], complement(width, w));
}
