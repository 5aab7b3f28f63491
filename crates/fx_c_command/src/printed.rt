//! The texts of what is certified.
//!
//! The trap: a text is made whole before anything is written, so where memory lacks nothing is.
ghost use Rattle.std.specs.Prelude.{◌≡◌, ◌<◌, IfOk};
ghost use Rattle.fx_c99.specs.CHeader.{bounds_of, c_header_of};
ghost use Rattle.fx_c99.specs.CHeaderMeaning.{SaysHeader};
ghost use Rattle.fx_c_command.specs.Printed.{IsCFor, TextHolds, printed_text, c_source_of};
ghost use Rattle.fx_bundle_commands.specs.OpeningView.{with_source};

use crate::words::Text;
use fx_bundle_commands::Opened;
use fx_c::{c_header, c_text};
use fx_c99::{certified_c_law, header_law};
use fx_checker::Certified;
use fx_mixed::least_widths;
use fx_model::in_range_law;
use fx_num::{Dyadic, Memory};
use fx_sound::run_law;
use fx_widths::least_law;
use std::alloc::{AllocError, Global};

// The source does what the program does, and the header says what is certified.
fn c_law(certified: &Certified)
    ensures source { IsCFor certified.now.function certified.now.program certified.now.certificate }
    ensures header { SaysHeader certified.now.function certified.now.program certified.now.certificate
        (c_header_of certified.now.function certified.now.program certified.now.certificate) }
{
    certified.certified();
    certified.function().keeps();
    certified.program().keeps();
    in_range_law();
    run_law();
    least_law();
    fx_c99::text_law();
    certified_c_law();
    header_law();
}

/// What holds of a text of what is certified.
pub fn text_law(certified: &Certified, text: Text)
    ensures { TextHolds text certified.now.function certified.now.program certified.now.certificate }
{
    c_law(certified);
    match text {
        Text::Source => {}
        Text::Header => {}
    }
}

// The one C text at the least widths.
fn source_text(alloc: Global, certified: &Certified) -> Result<Vec<u8>, Memory>
    ensures { IfOk result (λ t. t.items ≡ c_source_of certified.now.program certified.now.certificate) }
{
    match least_widths(alloc, certified) {
        Ok(widths) => c_text(alloc, certified.program(), &widths),
        Err(_) => Err(Memory),
    }
}

// How many outputs there are.
fn outputs_of(certified: &Certified) -> u32
    ensures { result ≡ certified.now.program.outputs }
{
    certified.program().outputs
}

// The bound of each output.
fn bounds_of(alloc: Global, certified: &Certified) -> Result<Vec<Dyadic>, AllocError>
    ensures { IfOk result (λ bounds. bounds.items ≡ bounds_of certified.now.program certified.now.certificate) }
{
    let mut bounds = Vec::new(alloc);
    let outputs = outputs_of(certified);
    for j in 0..outputs {
        bounds.push(certified.bound(j))?;
    }
    Ok(bounds)
}

// The one header.
fn header_text(alloc: Global, certified: &Certified) -> Result<Vec<u8>, Memory>
    ensures { IfOk result (λ t. t.items
        ≡ c_header_of certified.now.function certified.now.program certified.now.certificate) }
{
    let bounds = bounds_of(alloc, certified)?;
    c_header(
        alloc,
        certified.function(),
        certified.program(),
        bounds.as_slice(),
    )
}

/// This text of an opened bundle.
pub fn printed_text(alloc: Global, opened: &Opened, text: Text) -> Result<Vec<u8>, Memory>
    ensures { IfOk result (λ t. t.items
        ≡ printed_text text (with_source opened.now.certified opened.now.source) opened.now.certified.function) }
{
    match text {
        Text::Source => source_text(alloc, &opened.certified),
        Text::Header => header_text(alloc, &opened.certified),
    }
}
