//! Where the first line stands among bytes that were fetched, and what stands behind it.
ghost use Rattle.std.specs.Prelude.{◌≡◌, ◌<◌, ◌==◌, [], false, length, position, IfSome, IsTrue, Some, None};
ghost use Rattle.fx_base.specs.Fetches.{HasFound};
ghost use Rattle.fx_base.specs.LineCuts.{IsCut};
ghost use Rattle.fx_base.specs.Text.{text_at};

use crate::cuts::{line_end, line_in, mark_len};
use crate::fetch::Fetched;

// One byte more than a line may have.
const LINE: usize = 65_537;

/// Where a line stands among bytes.
#[derive(Clone, Copy)]
pub(crate) struct Cut {
    pub from: usize,
    pub to: usize,
    // Where what stands behind the line begins.
    pub next: usize,
    // The next line's end, seen from there.
    pub ahead: Option<usize>,
    // Whether a further line may be asked for.
    pub is_ready: bool,
    // Whether nothing comes behind the line.
    pub is_ended: bool,
}

/// The first line of what was fetched, and None where the input has ended and nothing is left.
#[inline(always)]
pub(crate) fn first_cut(bytes: &[u8], fetched: Fetched, is_first: bool) -> Option<Cut>
    requires { HasFound bytes.now fetched }
    ensures cut { IfSome result (IsCut is_first bytes.now) }
    ensures end { IfSome result (λ cut. IsTrue cut.is_ended → fetched ≡ Fetched.Ended) }
    ensures none { result ≡ None → (fetched ≡ Fetched.Ended) × (text_at is_first bytes.now ≡ []) }
{
    match fetched {
        Fetched::Whole(end) => Some(whole_cut(bytes, end, is_first)),
        Fetched::Long => Some(long_cut(bytes, is_first)),
        Fetched::Ended => last_cut(bytes, is_first),
    }
}

// A line whose end is held.
#[inline(always)]
fn whole_cut(bytes: &[u8], end: usize, is_first: bool) -> Cut
    requires { position (λ b. b == 10) bytes.now ≡ Some end }
    ensures cut { IsCut is_first bytes.now result }
    ensures end { result.is_ended ≡ false }
{
    let (from, length) = line_in(&bytes[..end], is_first);
    Cut {
        from,
        to: from + length.min(LINE),
        next: end + 1,
        ahead: line_end(&bytes[end + 1..]),
        is_ready: length < LINE,
        is_ended: false,
    }
}

// A line that is too long and whose end isn't held.
fn long_cut(bytes: &[u8], is_first: bool) -> Cut
    requires long { 65540 < length bytes.now }
    requires none { position (λ b. b == 10) bytes.now ≡ None }
    ensures cut { IsCut is_first bytes.now result }
    ensures end { result.is_ended ≡ false }
{
    let from = mark_len(bytes, is_first);
    Cut {
        from,
        to: from + LINE,
        next: bytes.len(),
        ahead: None,
        is_ready: false,
        is_ended: false,
    }
}

// The last line, which no line feed ends. A mark alone is none.
fn last_cut(bytes: &[u8], is_first: bool) -> Option<Cut>
    requires { position (λ b. b == 10) bytes.now ≡ None }
    ensures cut { IfSome result (IsCut is_first bytes.now) }
    ensures none { result ≡ None → text_at is_first bytes.now ≡ [] }
{
    let from = mark_len(bytes, is_first);
    let length = bytes.len() - from;
    if length == 0 {
        return None;
    }
    Some(Cut {
        from,
        to: from + length.min(LINE),
        next: bytes.len(),
        ahead: None,
        is_ready: length < LINE,
        is_ended: true,
    })
}
