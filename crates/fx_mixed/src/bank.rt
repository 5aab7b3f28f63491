//! Words in memory, each in its own width.
//!
//! Contracts see a list of widths and a list of words; the bytes are those of the words, packed.

ghost use Rattle.std.specs.Prelude.{◌≡◌, ◌<◌, ◌≤◌, ◌+◌, ◌/◌, ◌^◌, ◌++◌, ℕ, pos, length, take, drop, replicate, set, slice_index_or, Contains, IfOk};
ghost use Rattle.fx_model.specs.Tree.{at};
ghost use Rattle.fx_model.specs.LawfulProgram.{widths};
ghost use Rattle.fx_model.specs.Machine.{IsWord};
ghost use Rattle.fx_statements.specs.Widths.{FitWidths};
ghost use Rattle.fx_mixed.specs.Packed.{AreKnown, packed, packed_word, place_of, size_of, unpacked};

use crate::laws::{again_law, packed_law, place_law};
use crate::word::{read_word, write_word};
use fx_num::Memory;
use fx_statements::wrapped_law;
use std::alloc::{AllocError, Global};
use std::marker::Model;

/// A word of each of some widths.
#[derive(Debug, Drop)]
pub struct Bank {
    widths: Vec<u32>,
    places: Vec<u32>,
    bytes: Vec<u8>,
}

impl Model for Bank {
    ghost use Rattle.fx_mixed.specs.Banks.{Stored, stored_of, IsBank};

    ghost Value = { Stored };

    ghost view = { stored_of };

    ghost invariant = { λ b. IsBank b };
}

// Writes a word over bytes that stand in memory of their own.
fn write_in(bytes: &mut Vec<u8>, width: u32, at: usize, w: i64)
    requires known { Contains widths width }
    requires room { at + width / 8 ≤ length bytes.old.items }
    requires word { IsWord width w }
    ensures { bytes.new.items ≡ take at bytes.old.items ++ packed_word width w
        ++ drop (at + width / 8) bytes.old.items }
{
    write_word(bytes.as_mut_slice(), width, at, w);
}

// Each byte is one.
fn are_bytes(bytes: &[u8])
    ensures { (i : ℕ) → slice_index_or bytes.now i 0 < 256 }
{
    let _ = bytes.len();
}

// Where each word begins.
fn places(alloc: Global, lengths: &[u32]) -> Result<Vec<u32>, AllocError>
    requires known { AreKnown lengths.now }
    requires few { length lengths.now ≤ 2 ^ 16 }
    ensures counted { IfOk result (λ p. length p.items ≡ length lengths.now) }
    ensures places { IfOk result (λ p. (k : ℕ) → k < length lengths.now → at 0 p.items k ≡ place_of lengths.now k) }
{
    let mut places = Vec::new(alloc);
    let mut place = 0;
    for k in 0..lengths.len() {
        places.push(place)?;
        place += lengths[k] / 8;
    }
    Ok(places)
}

/// How many bytes all words take.
pub fn byte_count(lengths: &[u32]) -> usize
    requires known { AreKnown lengths.now }
    requires few { length lengths.now ≤ 2 ^ 16 }
    ensures size { result ≡ size_of lengths.now }
    ensures small { result < 2 ^ 32 }
{
    let mut size = 0;
    for k in 0..lengths.len() {
        size += (lengths[k] / 8) as usize;
    }
    size
}

impl Bank {
    /// A word of each of these widths, each 0.
    pub fn new(alloc: Global, lengths: Vec<u32>) -> Result<Bank, Memory>
        requires known { AreKnown lengths.items }
        requires few { length lengths.items ≤ 2 ^ 16 }
        ensures widths { IfOk result (λ b. b.widths ≡ lengths.items) }
        ensures words { IfOk result (λ b. b.words ≡ replicate (length lengths.items) (pos 0)) }
    {
        packed_law();
        let places = places(alloc, lengths.as_slice())?;
        let bytes = vec![in alloc; 0; byte_count(lengths.as_slice())]?;
        Ok(Bank {
            widths: lengths,
            places,
            bytes,
        })
    }

    // The width of word `k`.
    fn width(&self, k: usize) -> u32
        requires { k < length self.now.widths }
        ensures value { result ≡ at 0 self.now.widths k }
        ensures known { Contains widths (at 0 self.now.widths k) }
    {
        self.widths[k]
    }

    // Where word `k` begins.
    fn place(&self, k: usize) -> usize
        requires { k < length self.now.widths }
        ensures { result ≡ place_of self.now.widths k }
    {
        self.places[k] as usize
    }

    // All bytes.
    fn all(&self) -> &[u8]
        ensures words { self.now.words ≡ unpacked self.now.widths result.now }
        ensures size { size_of self.now.widths ≡ length result.now }
        ensures known { AreKnown self.now.widths }
    {
        self.bytes.as_slice()
    }

    /// Each word lies in its width, which is one of the eight.
    pub fn keeps(&self)
        ensures known { AreKnown self.now.widths }
        ensures counted { length self.now.words ≡ length self.now.widths }
        ensures fit { FitWidths self.now.widths self.now.words }
    {
        wrapped_law();
        let _ = self.all();
    }

    /// The widths.
    pub fn widths(&self) -> &[u32]
        ensures { result.now ≡ self.now.widths }
    {
        self.widths.as_slice()
    }

    /// Word `k`.
    pub fn word(&self, k: usize) -> i64
        requires { k < length self.now.widths }
        ensures { result ≡ at (pos 0) self.now.words k }
    {
        place_law();
        read_word(self.all(), self.width(k), self.place(k))
    }

    /// The words as they lie in memory.
    pub fn bytes(&self) -> &[u8]
        ensures { result.now ≡ packed self.now.widths self.now.words }
    {
        again_law();
        let all = self.all();
        are_bytes(all);
        all
    }

    /// Puts a word in the place of word `k`.
    pub fn set_word(&mut self, k: usize, w: i64)
        requires within { k < length self.old.widths }
        requires word { IsWord (at 0 self.old.widths k) w }
        ensures widths { self.new.widths ≡ self.old.widths }
        ensures words { self.new.words ≡ set self.old.words k w }
    {
        place_law();
        let at = self.place(k);
        let width = self.width(k);
        write_in(&mut self.bytes, width, at, w);
    }
}
