//! Writing a line field by field, and lines of a word and some numbers whole.
//!
//! A line begins with a word, each further field stands behind a space, and a line feed ends it. Each call appends what
//! its clause says, so that a line's printer appends the line's text. What a failed call has appended isn't told: its
//! caller drops the text.

ghost use Rattle.std.specs.Prelude.{◌≡◌, ◌++◌, ◌∷◌, [], OnOk};
ghost use Rattle.std.specs.List.{flat_map};
ghost use Rattle.fx_model.specs.LineText.{dyadic_text, line_text};

use fx_num::Dyadic;
use itoa::{Buffer, Integer};
use std::alloc::AllocError;

/// The first field of a line.
pub fn begin_line(out: &mut Vec<u8>, word: &[u8]) -> Result<(), AllocError>
    ensures { OnOk result (out.new.items ≡ out.old.items ++ word.now) }
{
    out.extend_from_slice(word)
}

/// A space and a field as it is. It may hold neither a space nor a line feed.
pub fn put_word(out: &mut Vec<u8>, word: &[u8]) -> Result<(), AllocError>
    ensures { OnOk result (out.new.items ≡ out.old.items ++ 32 ∷ word.now) }
{
    out.push(b' ')?;
    out.extend_from_slice(word)
}

/// A space and a whole number.
pub fn put_number<I: Integer>(out: &mut Vec<u8>, n: I) -> Result<(), AllocError>
    ensures { OnOk result (out.new.items ≡ out.old.items ++ 32 ∷ I.text n) }
{
    let mut buffer = Buffer::new();
    put_word(out, buffer.format(n).as_bytes())
}

/// A space and a dyadic as `m:e`.
pub fn put_dyadic(out: &mut Vec<u8>, d: Dyadic) -> Result<(), AllocError>
    ensures { OnOk result (out.new.items ≡ out.old.items ++ 32 ∷ dyadic_text d) }
{
    put_number(out, d.m)?;
    out.push(b':')?;
    let mut buffer = Buffer::new();
    out.extend_from_slice(buffer.format(d.e).as_bytes())
}

/// An interval's ends, each behind a space.
pub fn put_interval(out: &mut Vec<u8>, lo: Dyadic, hi: Dyadic) -> Result<(), AllocError>
    ensures { OnOk result (out.new.items ≡ out.old.items ++ 32 ∷ dyadic_text lo ++ 32 ∷ dyadic_text hi) }
{
    put_dyadic(out, lo)?;
    put_dyadic(out, hi)
}

/// Prints each of these dyadics behind a space.
pub fn put_dyadics(out: &mut Vec<u8>, ds: &[Dyadic]) -> Result<(), AllocError>
    ensures { OnOk result (out.new.items ≡ out.old.items ++ flat_map (λ d. 32 ∷ dyadic_text d) ds.now) }
{
    for d in ds {
        put_dyadic(out, *d)?;
    }
    Ok(())
}

/// The line feed of a line.
pub fn end_line(out: &mut Vec<u8>) -> Result<(), AllocError>
    ensures { OnOk result (out.new.items ≡ out.old.items ++ 10 ∷ []) }
{
    out.push(b'\n')?;
    Ok(())
}

/// A line of a word and one number.
pub fn put_one<A: Integer>(out: &mut Vec<u8>, word: &[u8], a: A) -> Result<(), AllocError>
    ensures { OnOk result (out.new.items ≡ out.old.items ++ line_text (word.now ∷ A.text a ∷ [])) }
{
    begin_line(out, word)?;
    put_number(out, a)?;
    end_line(out)
}

/// A line of a word and two numbers.
pub fn put_two<A: Integer, B: Integer>(
    out: &mut Vec<u8>,
    word: &[u8],
    a: A,
    b: B,
) -> Result<(), AllocError>
    ensures { OnOk result (out.new.items ≡ out.old.items ++ line_text (word.now ∷ A.text a ∷ B.text b ∷ [])) }
{
    begin_line(out, word)?;
    put_number(out, a)?;
    put_number(out, b)?;
    end_line(out)
}

/// A line of a word and three numbers.
pub fn put_three<A: Integer, B: Integer, C: Integer>(
    out: &mut Vec<u8>,
    word: &[u8],
    a: A,
    b: B,
    c: C,
) -> Result<(), AllocError>
    ensures { OnOk result (out.new.items ≡ out.old.items
        ++ line_text (word.now ∷ A.text a ∷ B.text b ∷ C.text c ∷ [])) }
{
    begin_line(out, word)?;
    put_number(out, a)?;
    put_number(out, b)?;
    put_number(out, c)?;
    end_line(out)
}

/// A line of a word and four numbers.
pub fn put_four<A: Integer, B: Integer, C: Integer, D: Integer>(
    out: &mut Vec<u8>,
    word: &[u8],
    a: A,
    b: B,
    c: C,
    d: D,
) -> Result<(), AllocError>
    ensures { OnOk result (out.new.items ≡ out.old.items
        ++ line_text (word.now ∷ A.text a ∷ B.text b ∷ C.text c ∷ D.text d ∷ [])) }
{
    begin_line(out, word)?;
    put_number(out, a)?;
    put_number(out, b)?;
    put_number(out, c)?;
    put_number(out, d)?;
    end_line(out)
}
