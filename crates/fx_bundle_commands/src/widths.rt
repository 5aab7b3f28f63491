//! What `widths FILE` prints: the least width of each code of an accepted bundle, and how many bytes all take.
ghost use Rattle.std.specs.Prelude.{◌≡◌, ◌++◌, ◌∷◌, [], ◌<◌, length, OnOk, IfOk};
ghost use Rattle.std.specs.Fmt.{decimal};
ghost use Rattle.fx_model.specs.LineText.{line_text, numbered_lines};
ghost use Rattle.fx_mixed.specs.Packed.{size_of};
ghost use Rattle.fx_widths.specs.LeastWidths.{least_widths};
ghost use Rattle.fx_bundle_commands.specs.commands.Widths.{width_line, widths_text};

use crate::table::{codes_of, name_at};
use fx_checker::Certified;
use fx_mixed::{byte_count, least_width, least_widths};
use fx_num::Memory;
use fx_text::{begin_line, end_line, put_number, put_one, put_word};
use itoa::Buffer;
use std::alloc::{AllocError, Global};

// A number, a name and a width.
fn put_width(out: &mut Vec<u8>, number: u32, name: &str, width: u32) -> Result<(), AllocError>
    ensures { OnOk result (out.new.items ≡ out.old.items
        ++ line_text (decimal number ∷ name.now ∷ decimal width ∷ [])) }
{
    let mut digits = Buffer::new();
    begin_line(out, digits.format(number).as_bytes())?;
    put_word(out, name.as_bytes())?;
    put_number(out, width)?;
    end_line(out)?;
    Ok(())
}

// The line of code `n`.
fn put_code(out: &mut Vec<u8>, certified: &Certified, n: u32) -> Result<(), AllocError>
    requires { n < length certified.now.program.codes }
    ensures { OnOk result (out.new.items ≡ out.old.items
        ++ width_line certified.now.program certified.now.certificate n) }
{
    let name = name_at(certified.program(), n);
    put_width(out, n, name, least_width(certified, n))?;
    Ok(())
}

// The lines of all codes.
fn put_codes(out: &mut Vec<u8>, certified: &Certified) -> Result<(), AllocError>
    ensures { OnOk result (out.new.items ≡ out.old.items
        ++ numbered_lines (width_line certified.now.program certified.now.certificate) 0
        (length certified.now.program.codes)) }
{
    let count = codes_of(certified);
    for n in 0..count {
        put_code(out, certified, n)?;
    }
    Ok(())
}

// How many bytes the words of all codes take.
fn bytes_of(alloc: Global, certified: &Certified) -> Result<usize, Memory>
    ensures { IfOk result (λ n. n ≡ size_of (least_widths certified.now.program certified.now.certificate)) }
{
    certified.program().keeps();
    let widths = least_widths(alloc, certified)?;
    Ok(byte_count(widths.as_slice()))
}

// All lines behind one another.
fn put_all_lines(out: &mut Vec<u8>, certified: &Certified, bytes: usize) -> Result<(), AllocError>
    requires { bytes ≡ size_of (least_widths certified.now.program certified.now.certificate) }
    ensures { OnOk result (out.new.items ≡ out.old.items
        ++ widths_text certified.now.program certified.now.certificate) }
{
    put_codes(out, certified)?;
    put_one(out, b"bytes", bytes)?;
    Ok(())
}

/// All lines, as a text.
pub(crate) fn widths_text(alloc: Global, certified: &Certified) -> Result<Vec<u8>, Memory>
    ensures { IfOk result (λ text. text.items ≡ widths_text certified.now.program certified.now.certificate) }
{
    let bytes = bytes_of(alloc, certified)?;
    let mut out = Vec::new(alloc);
    match put_all_lines(&mut out, certified, bytes) {
        Ok(()) => Ok(out),
        Err(_) => Err(Memory),
    }
}
