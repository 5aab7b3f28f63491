//! The calls that read to the end, or write a whole list.
//!
//! They hide from every caller that bytes come and go in pieces. Each says what was taken or appended in each answer,
//! a refusal included, so that a caller can name the bytes that it had when the outside failed.
//! The trap: the limit is tested before the piece is kept, and on the sum, so a source of exactly `limit` bytes is read
//! to its end and one byte more is `TooLong`.
ghost use Rattle.std.specs.Prelude.{◌≡◌, ◌<◌, ◌≤◌, ◌⊎◌, length, vec_len, IfOk, IfErr, OnOk, OnErr, IsErrOf, IsSomeAnd, Some};
ghost use Rattle.std.specs.Io.KnownBytes.{Consumes, Appends, IsAtEnd};
ghost use Rattle.fx_base.specs.Causes.{Rose, HasCause};
ghost use Rattle.fx_base.specs.Shelf.{IfPaper, IsMissing};
ghost use Rattle.fx_base.specs.Requests.{AsksInOrder};
ghost use Rattle.fx_base.specs.Calls.{TakesUpTo, AppendsFront};

use crate::{Failed, InFault, Shelf, Silent, Sink, Source};
use std::alloc::Global;

// In bytes: few calls of the system for a long file, and still little on the stack.
const BLOCK: usize = 16_384;

/// All bytes up to the end of input, at most `limit` of them; nothing is shown meanwhile. After a refusal the source
/// stands behind what was taken.
pub fn read_all<S: Source<Silent>>(
    alloc: Global,
    source: &mut S,
    limit: u64,
) -> Result<Vec<u8>, InFault>
    ensures all { IfOk result (λ bytes. Consumes (S.seen source.old).left (S.seen source.new).left bytes.items) }
    ensures end { OnOk result (IsAtEnd (S.seen source.new).left) }
    ensures within { IfOk result (λ bytes. vec_len bytes ≤ limit) }
    ensures taken { IfErr result (TakesUpTo (S.seen source.old).left (S.seen source.new).left limit) }
    ensures later { (S.seen source.old).faults ≤ (S.seen source.new).faults }
    ensures read_fault { IsErrOf result InFault.ReadFault → Rose (S.seen source.old).faults (S.seen source.new).faults }
{
    let mut bytes = Vec::new(alloc);
    let mut block = [0; BLOCK];
    let shown = Silent::new();
    'reads: loop {
        let count = source.read(&mut block, &shown)?;
        if count == 0 {
            return Ok(bytes);
        }
        if count as u64 > limit - bytes.len() as u64 {
            return Err(InFault::TooLong);
        }
        bytes.extend_from_slice(&block[..count])?;
    }
}

/// All bytes of a file, at most `limit` of them, each read once and in order.
pub fn read_file<H: Shelf>(
    alloc: Global,
    shelf: &mut H,
    name: &str,
    limit: u64,
) -> Result<Vec<u8>, InFault>
    ensures all { IfOk result (λ bytes. IfPaper (H.seen shelf.old).files name.now (λ paper. paper ≡ Some bytes.items)) }
    ensures within { IfOk result (λ bytes. vec_len bytes ≤ limit) }
    ensures too_long { IsErrOf result InFault.TooLong
        → IfPaper (H.seen shelf.old).files name.now (λ paper. IsSomeAnd paper (λ file. limit < length file)) }
    ensures read_fault { IsErrOf result InFault.ReadFault
        → IsMissing (H.seen shelf.old).files name.now ⊎ Rose (H.seen shelf.old).faults (H.seen shelf.new).faults }
    ensures same { (H.seen shelf.new).files ≡ (H.seen shelf.old).files }
    ensures asked { AsksInOrder name.now (H.seen shelf.old).asked (H.seen shelf.new).asked }
    ensures later { (H.seen shelf.old).faults ≤ (H.seen shelf.new).faults }
    ensures missing { IsMissing (H.seen shelf.old).files name.now → (H.seen shelf.new).faults ≡
        (H.seen shelf.old).faults }
{
    let mut bytes = Vec::new(alloc);
    let mut block = [0; BLOCK];
    'reads: loop {
        let part = shelf.read_at(name, bytes.len() as u64, &mut block)?;
        if part == 0 {
            return Ok(bytes);
        }
        if part as u64 > limit - bytes.len() as u64 {
            return Err(InFault::TooLong);
        }
        bytes.extend_from_slice(&block[..part])?;
    }
}

/// Appends all of `bytes`. Where a write fails, a front of them was appended.
pub fn put_all<K: Sink>(sink: &mut K, bytes: &[u8]) -> Result<(), Failed>
    ensures all { OnOk result (Appends (K.seen sink.old).taken (K.seen sink.new).taken bytes.now) }
    ensures front { OnErr result (AppendsFront (K.seen sink.old).taken (K.seen sink.new).taken bytes.now) }
    ensures cause { HasCause (K.seen sink.old).faults (K.seen sink.new).faults result }
{
    let mut at = 0;
    while at < bytes.len() {
        at += sink.write(&bytes[at..])?;
    }
    Ok(())
}
