//! The accepted bundle in FILE.
//!
//! The file is read whole, its text is read as a bundle, the bundle's source as a function, and then all conditions are
//! looked at; the first cause ends it. The trap: want of memory may come at any stage, and is no fault of the bundle.
ghost use Rattle.std.specs.Prelude.{◌≡◌, ◌≢◌, ◌⊎◌, IfOk, IfErr};
ghost use Rattle.fx_base.specs.Requests.{AsksInOrder};
ghost use Rattle.fx_text.specs.declared.fault.TextKind.TheVariants as texts;
ghost use Rattle.fx_lexer.specs.declared.fault.SourceKind.TheVariants as sources;
ghost use Rattle.fx_ends.specs.Ends as ends;
ghost use Rattle.fx_ends.specs.EndView.{end_of};
ghost use Rattle.fx_bundle_commands.specs.Opening.{OpeningEnds};
ghost use Rattle.fx_bundle_commands.specs.OpeningView.{IsOpened, IsReadAs, ReadingEnds, check_end, read_end};

use fx_base::{InFault, Shelf, read_file};
use fx_cert_text::{Bundle, bundle_text_law, read_bundle};
use fx_checker::{Certified, CheckFault, check};
use fx_ends::End;
use fx_expr::Items;
use fx_lexer::{SourceFault, SourceKind};
use fx_parser::parse;
use fx_text::{TextFault, TextKind};
use std::alloc::Global;

// In bytes.
const BUNDLE_LIMIT: u64 = 67_108_864;

/// Of a file that wasn't read.
pub fn end_of_read(fault: InFault) -> End<'static>
    ensures { end_of result ≡ read_end fault }
{
    match fault {
        InFault::ReadFault => End::ReadFault,
        InFault::TooLong => End::OverLimit,
        InFault::Memory => End::NoMemory,
    }
}

// Of a text that isn't a bundle's.
fn end_of_text(fault: TextFault) -> End<'static>
    ensures { (end_of result ≡ ends.NoMemory) ⊎ ((end_of result ≡ ends.BadBundle fault) × (fault.kind ≢ texts.Memory)) }
{
    match fault.kind {
        TextKind::Memory => End::NoMemory,
        _ => End::BadBundle(fault),
    }
}

/// Of a source that has no such function.
pub fn end_of_source(fault: SourceFault) -> End<'static>
    ensures { (end_of result ≡ ends.NoMemory) ⊎ ((end_of result ≡ ends.Misread fault) × (fault.kind ≢ sources.Memory)) }
{
    match fault.kind {
        SourceKind::Memory => End::NoMemory,
        _ => End::Misread(fault),
    }
}

// Of a bundle that isn't accepted.
fn end_of_check(fault: CheckFault) -> End<'static>
    ensures { end_of result ≡ check_end fault }
{
    match fault {
        CheckFault::Condition(fault) => End::Rejected(fault),
        CheckFault::Memory => End::NoMemory,
    }
}

/// An accepted bundle.
#[derive(Drop)]
pub struct Opened {
    /// The bytes of its source.
    pub source: Items<u8>,
    /// The function that they mean, with the program and the certificate.
    pub certified: Certified,
}

// The accepted bundle that these bytes spell.
fn accept(alloc: Global, bytes: &[u8]) -> Result<Opened, End<'static>>
    ensures accepted { IfOk result (λ o. IsReadAs bytes.now o.source o.certified) }
    ensures failed { IfErr result (λ end. ReadingEnds bytes.now (end_of end)) }
{
    bundle_text_law();
    let Bundle {
        source,
        program,
        certificate,
    } = match read_bundle(alloc, bytes) {
        Ok(bundle) => bundle,
        Err(fault) => return Err(end_of_text(fault)),
    };
    let function = match parse(alloc, source.as_slice(), Some(program.name.as_str())) {
        Ok(function) => function,
        Err(fault) => return Err(end_of_source(fault)),
    };
    match check(alloc, &function, program, certificate) {
        Ok(certified) => Ok(Opened { source, certified }),
        Err(fault) => Err(end_of_check(fault)),
    }
}

/// The accepted bundle in the file of this name.
pub fn open<H: Shelf>(alloc: Global, shelf: &mut H, name: &str) -> Result<Opened, End<'static>>
    ensures opened { IfOk result (λ o. IsOpened (H.seen shelf.old).files name.now o.source o.certified) }
    ensures failed { IfErr result
        (λ end. OpeningEnds (H.seen shelf.old) (H.seen shelf.new) name.now (end_of end)) }
    ensures asked { AsksInOrder name.now (H.seen shelf.old).asked (H.seen shelf.new).asked }
{
    let bytes = match read_file(alloc, shelf, name, BUNDLE_LIMIT) {
        Ok(bytes) => bytes,
        Err(fault) => return Err(end_of_read(fault)),
    };
    accept(alloc, &bytes)
}
