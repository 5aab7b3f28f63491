//! Where a line stands among the bytes before its end.
ghost use Rattle.std.specs.Prelude.{◌≡◌, ◌≤◌, ◌==◌, ◌+◌, take, drop, length, position, None};
ghost use Rattle.std.specs.Str.Lines.{strip_carriage_return};
ghost use Rattle.fx_base.specs.Text.{text_at};

use memchr::memchr;

// How many bytes the mark at the front has: three or none.
pub(crate) fn mark_len(bytes: &[u8], is_first: bool) -> usize
    ensures skips { text_at is_first bytes.now ≡ drop result bytes.now }
    ensures within { result ≤ length bytes.now }
    ensures few { result ≤ 3 }
{
    match bytes {
        [0xef, 0xbb, 0xbf, ..] if is_first => 3,
        _ => 0,
    }
}

// The length of a line without the carriage return at its end.
fn trimmed_len(raw: &[u8]) -> usize
    ensures strips { strip_carriage_return raw.now ≡ take result raw.now }
    ensures within { result ≤ length raw.now }
{
    match raw {
        [.., b'\r'] => raw.len() - 1,
        _ => raw.len(),
    }
}

// Where a line begins behind the mark, and how long it is without its carriage return.
#[inline]
pub(crate) fn line_in(raw: &[u8], is_first: bool) -> (usize, usize)
    ensures skips { text_at is_first raw.now ≡ drop result.0 raw.now }
    ensures strips { strip_carriage_return (drop result.0 raw.now) ≡ take result.1 (drop result.0 raw.now) }
    ensures within { result.0 + result.1 ≤ length raw.now }
{
    let from = mark_len(raw, is_first);
    (from, trimmed_len(&raw[from..]))
}

// Where the first line feed stands.
pub(crate) fn line_end(bytes: &[u8]) -> Option<usize>
    ensures { result ≡ position (λ b. b == 10) bytes.now }
{
    memchr(b'\n', bytes)
}

/// Where a line ends, of bytes none of which ends one before `seen`. It looks at the bytes from there on alone.
pub(crate) fn line_end_from(bytes: &[u8], seen: usize) -> Option<usize>
    requires within { seen ≤ length bytes.now }
    requires before { position (λ b. b == 10) (take seen bytes.now) ≡ None }
    ensures { result ≡ position (λ b. b == 10) bytes.now }
{
    match line_end(&bytes[seen..]) {
        Some(end) => Some(seen + end),
        None => None,
    }
}
