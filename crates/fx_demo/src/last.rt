//! The last line of a page.
ghost use Rattle.std.specs.Prelude.{◌≡◌, IfSome, None};
ghost use Rattle.fx_demo.specs.LastLine.{HasTwoLines, IsLastLine};

use memchr::memrchr;

/// The last line, without its line feed, where another stands before it.
pub fn last_line(page: &[u8]) -> Option<&[u8]>
    ensures line { IfSome result (λ line. IsLastLine page.now line.now) }
    ensures none { result ≡ None → ¬ HasTwoLines page.now }
{
    let end = memrchr(b'\n', page)?;
    if end + 1 < page.len() {
        return None;
    }
    let lines = &page[..end];
    let before = memrchr(b'\n', lines)?;
    Some(&lines[before + 1..])
}
