//! Words in a bank, as a code reads them.
ghost use Rattle.std.specs.Prelude.{◌+◌, ◌≤◌, length, take, drop};

use crate::Bank;
use fx_machine::Words;
use fx_word::Word;

/// A run of a bank's words, from one of them on.
#[derive(Clone, Copy, Debug)]
pub(crate) struct Places<'a> {
    pub(crate) bank: &'a Bank,
    pub(crate) from: u32,
    pub(crate) count: u32,
    ghost within: { from + count ≤ length bank.now.widths },
    ghost few: { length bank.now.widths ≤ 4000 },
}

impl<'a, const B: u32> Words<B> for Places<'a> {
    ghost use Rattle.std.specs.Prelude.{take, drop};

    ghost words = { λ p. take p.count (drop p.from p.bank.now.words) };

    fn word(&self, k: u32) -> Word<B> {
        Word::of(self.bank.word((self.from + k) as usize))
    }
}
