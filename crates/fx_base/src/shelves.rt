//! What files are read from: the trait `Shelf`, the name of a file, and the kind in memory.
//!
//! A shelf is read at a place, so a file has no state and two readers can't disturb one another. It may tell its
//! `files`, which never change, and note what it was `asked` for. `Papers` holds files in memory and fails at chosen
//! calls.
//! The trap: a name that isn't there is `Failed` as well, and leaves the count as it was where the shelf tells its
//! files. So a fault of a read has two causes, and only one of them is the outside's.
ghost use Rattle.std.specs.Prelude.{◌≡◌, ◌↔◌, ◌⊎◌, ◌-◌, [], length, min, string_bytes, Contains, IsErr, IfOk, IfSome, OnErr, Some, None};
ghost use Rattle.std.specs.Option.{option_copied};
ghost use Rattle.std.specs.Io.{ReadsAtMost};
ghost use Rattle.fx_base.specs.Causes.{counted};
ghost use Rattle.fx_base.specs.Moments.{Notes};
ghost use Rattle.fx_base.specs.Requests.{Request};
ghost use Rattle.fx_base.specs.Shelf.{entries, paper_of, ReadsPart, HasShelfCause};
ghost use Rattle.fx_base.specs.Views.{ShelfView};

use crate::Failed;
use crate::copies::copy_from;
use std::marker::Model;

/// A shelf of files. Of what they hold it may tell nothing.
pub trait Shelf {
    // What it tells of itself.
    ghost seen: { Self → ShelfView };

    /// Puts bytes of a file, from the place `at` on, into the front of `buf` and gives their count. `Ok(0)` for a
    /// buffer with room is the file's end. A name that isn't there is `Failed`.
    fn read_at(&mut self, name: &str, at: u64, buf: &mut [u8]) -> Result<usize, Failed>
        ensures bound { ReadsAtMost result buf.new }
        ensures part { ReadsPart (seen self.old).files name.now at result buf.new }
        ensures same { (seen self.new).files ≡ (seen self.old).files }
        ensures request { Notes (record { name = name.now; at = at }) (seen self.old).asked (seen self.new).asked }
        ensures cause { HasShelfCause (seen self.old).files name.now (seen self.old).faults (seen self.new).faults
            result };
}

/// The name of a file.
#[derive(Debug, Drop)]
pub struct FileName {
    text: String,
}

impl Model for FileName {
    ghost use Rattle.std.specs.Prelude.{ℕ, List, string_bytes};

    ghost Value = { List ℕ };

    ghost view = { λ n. string_bytes n.text };
}

impl FileName {
    /// Any text is one.
    pub fn new(text: String) -> Self
        ensures { result ≡ string_bytes text }
    {
        FileName { text }
    }

    /// The text.
    pub fn as_str(&self) -> &str
        ensures { result.now ≡ self.now }
    {
        self.text.as_str()
    }
}

/// Files in memory. Of two with one name the first counts. A read of a name that isn't there fails; of the other
/// reads those fail whose numbers, from 1, stand in a list.
#[derive(Debug, Drop)]
pub struct Papers {
    files: Vec<(FileName, Vec<u8>)>,
    fails: Vec<u64>,
    calls: u64,
    faults: u64,
}

impl Model for Papers {
    ghost use Rattle.fx_base.specs.Kinds.{ShelfState};
    ghost use Rattle.fx_base.specs.Shelf.{entries};

    ghost Value = { ShelfState };

    ghost view = { λ s. record {
      files = entries s.files.items;
      fails = s.fails.items;
      calls = s.calls;
      faults = s.faults;
    } };
}

impl Papers {
    /// `fails` has the numbers of the reads that fail, from 1. Reads of a name that isn't there are counted in.
    pub fn new(files: Vec<(FileName, Vec<u8>)>, fails: Vec<u64>) -> Self
        ensures { result ≡ record { files = entries files.items; fails = fails.items; calls = 0; faults = 0 } }
    {
        Papers {
            files,
            fails,
            calls: 0,
            faults: 0,
        }
    }
}

// The bytes of the first file of that name.
fn find<'a>(files: &'a [(FileName, Vec<u8>)], name: &str) -> Option<&'a [u8]>
    ensures { option_copied result ≡ paper_of (entries files.now) name.now }
{
    for file in files {
        if name == file.0.as_str() {
            return Some(&file.1);
        }
    }
    None
}

impl Shelf for Papers {
    ghost use Rattle.fx_base.specs.Kinds.{after_read_at};

    ghost seen = { λ s. record { files = Some s.files; asked = []; faults = s.faults } };

    fn read_at(&mut self, name: &str, at: u64, buf: &mut [u8]) -> Result<usize, Failed>
        ensures bound { ReadsAtMost result buf.new }
        ensures part { ReadsPart (Some self.old.files) name.now at result buf.new }
        ensures same { self.new.files ≡ self.old.files }
        ensures request { Notes {X = Request} (record { name = name.now; at = at }) [] [] }
        ensures cause { HasShelfCause (Some self.old.files) name.now self.old.faults self.new.faults result }

        ensures fails { IsErr result ↔ (paper_of self.old.files name.now ≡ None) ⊎
            Contains self.old.fails (counted self.old.calls) }
        ensures count { IfOk result
            (λ n. IfSome (paper_of self.old.files name.now) (λ file. n ≡ min (length buf.old) (length file - at))) }
        ensures after { self.new ≡ after_read_at self.old name.now result }
        ensures kept { OnErr result (buf.new ≡ buf.old) }
    {
        self.calls = self.calls.saturating_add(1);
        let Some(file) = find(&self.files, name) else {
            return Err(Failed);
        };
        if self.fails.contains(&self.calls) {
            self.faults = self.faults.saturating_add(1);
            return Err(Failed);
        }
        match usize::try_from(at) {
            Ok(at) if at <= file.len() => Ok(copy_from(file, at, usize::MAX, buf)),
            _ => Ok(0),
        }
    }
}
