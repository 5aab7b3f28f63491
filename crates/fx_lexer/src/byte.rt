//! The classes of bytes that tokens are made of.
//!
//! The text is UTF-8 and is read byte by byte: every token is ASCII, so its ends lie between characters. The trap: past
//! the end of the text stands a 0, which is in no class, so that a reader needs no test for the end.

ghost use Rattle.std.specs.Prelude.{◌≡◌, slice_index};
ghost use Rattle.fx_lexer.specs.Characters.{is_blank};

/// The byte at a place, or 0 past the end.
pub fn byte_at(bytes: &[u8], i: usize) -> u8
    ensures { result ≡ slice_index bytes.now i }
{
    if i < bytes.len() { bytes[i] } else { 0 }
}

/// A space, tab, line feed or carriage return.
pub fn is_blank(byte: u8) -> bool
    ensures { result ≡ is_blank byte }
{
    byte == b' ' || byte == b'\t' || byte == b'\n' || byte == b'\r'
}
