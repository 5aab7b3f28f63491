//! Numbers in bytes, the least first.

ghost use Rattle.std.specs.Prelude.{◌≡◌, ◌≤◌, length};
ghost use Rattle.fx_mixed.specs.Packed.{bytes_of, number_of};

/// Fills a slice with the bytes of a number.
pub fn put_bytes(bytes: &mut [u8], number: u64)
    ensures { bytes.new ≡ bytes_of (length bytes.old) number }
{
    let mut rest = number;
    for k in 0..bytes.len() {
        bytes[k] = (rest % 256) as u8;
        rest /= 256;
    }
}

/// The number that bytes stand for.
pub fn number(bytes: &[u8]) -> u64
    requires { length bytes.now ≤ 8 }
    ensures { result ≡ number_of bytes.now }
{
    let count = bytes.len();
    let mut all = 0;
    for k in 0..count {
        all = all * 256 + u64::from(bytes[count - 1 - k]);
    }
    all
}
