//! What is printed and not written yet, in a block of memory that is made once.
//!
//! What a line prints goes into the block, and the block goes out before a read that might wait and where another line
//! might not fit. So no line wants memory for what it prints.
ghost use Rattle.std.specs.Prelude.{◌≡◌, ◌+◌, ◌≤◌, ◌↔◌, [], ◌++◌, length, take, IsTrue, IfOk, OnOk, OnErr};
ghost use Rattle.std.specs.Io.KnownBytes.{Appends};
ghost use Rattle.fx_model.specs.LawfulProgram.{IsPoint};
ghost use Rattle.fx_model.specs.WordText.{decimal_text};
ghost use Rattle.fx_base.specs.Causes.{HasCause};
ghost use Rattle.fx_base.specs.Calls.{AppendsFront};
ghost use Rattle.fx_stream.specs.Rooms.{HasRoom, page_room};

use fx_base::{Failed, Sink, put_all};
use fx_fraction::decimal_text;
use fx_num::Memory;
use std::alloc::Global;
use std::marker::Model;

// In bytes: few calls of the system for a long page.
const BLOCK: usize = 196_608;

// What taking a line may print: sixteen lines of 64 fields of 128 bytes, with a byte behind each.
const LINES: usize = 132_096;

/// Writes the decimal text of a word into the front, and gives its length.
fn put_text(free: &mut [u8], word: i64, point: i32) -> usize
    requires point { IsPoint point }
    requires room { 128 ≤ length free.old }
    ensures text { take result free.new ≡ decimal_text word point }
    ensures length { result ≡ length (decimal_text word point) }
    ensures few { result ≤ 128 }
    ensures same { length free.new ≡ length free.old }
{
    match free.first_chunk_mut::<128>() {
        Some(room) => decimal_text(i128::from(word), point, room),
        None => 0,
    }
}

/// Writes it behind so many bytes, and gives the place behind it.
fn put_text_at(block: &mut [u8], used: usize, word: i64, point: i32) -> usize
    requires point { IsPoint point }
    requires room { used + 128 ≤ length block.old }
    ensures written { take result block.new ≡ take used block.old ++ decimal_text word point }
    ensures end { (used ≤ result) × (result ≤ used + 128) }
    ensures same { length block.new ≡ length block.old }
{
    used + put_text(&mut block[used..], word, point)
}

/// What is printed and not written yet.
#[derive(Drop)]
pub struct Page {
    block: Vec<u8>,
    used: usize,
}

impl Model for Page {
    ghost use Rattle.std.specs.Prelude.{◌≡◌, ◌≤◌, ℕ, List, length, take};
    ghost use Rattle.fx_stream.specs.Rooms.{page_room};

    ghost Value = { List ℕ };

    ghost view = { λ p. take p.used p.block.items };

    ghost invariant = { λ p. (p.used ≤ page_room) × (length p.block.items ≡ page_room) };
}

impl Page {
    /// An empty page. All room is made here.
    pub fn new(alloc: Global) -> Result<Page, Memory>
        ensures { IfOk result (λ page. page ≡ []) }
    {
        let block = vec![in alloc; 0; BLOCK]?;
        Ok(Page { block, used: 0 })
    }

    /// Appends bytes.
    pub fn put(&mut self, bytes: &[u8])
        requires { length self.old + length bytes.now ≤ page_room }
        ensures { self.new ≡ self.old ++ bytes.now }
    {
        let end = self.used + bytes.len();
        self.block[self.used..end].copy_from_slice(bytes);
        self.used = end;
    }

    /// Appends the decimal text of `word / 2^point`, which is written where it stays.
    pub fn put_decimal(&mut self, word: i64, point: i32)
        requires point { IsPoint point }
        requires room { length self.old + 128 ≤ page_room }
        ensures written { self.new ≡ self.old ++ decimal_text word point }
        ensures short { length self.new ≤ length self.old + 128 }
    {
        self.used = put_text_at(&mut self.block, self.used, word, point);
    }

    /// Whether there is room for what taking a line may print.
    pub fn has_room(&self) -> bool
        ensures { IsTrue result ↔ HasRoom self.now }
    {
        BLOCK - self.used >= LINES
    }

    /// Writes all. Where that fails, the page stays as it was.
    pub fn write_out<K: Sink>(&mut self, sink: &mut K) -> Result<(), Failed>
        ensures all { OnOk result (Appends (K.seen sink.old).taken (K.seen sink.new).taken self.old) }
        ensures empty { OnOk result (self.new ≡ []) }
        ensures kept { OnErr result (self.new ≡ self.old) }
        ensures front { OnErr result (AppendsFront (K.seen sink.old).taken (K.seen sink.new).taken self.old) }
        ensures cause { HasCause (K.seen sink.old).faults (K.seen sink.new).faults result }
    {
        put_all(sink, &self.block[..self.used])?;
        self.used = 0;
        Ok(())
    }
}
