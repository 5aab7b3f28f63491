//! Where the words of a step stand.
//!
//! A code reads the words before it, and the state words, by this trait, so that what a code does is written and proved
//! once, whether words stand in cells of one size or each in a width of its own. The trap: a word is read as one of the
//! program's width, though the place where it stands may be narrower or wider.

ghost use Rattle.std.specs.Prelude.{◌≡◌, ◌<◌, ℤ, List, pos, length, All};
ghost use Rattle.fx_model.specs.Machine.{IsWord};
ghost use Rattle.fx_model.specs.Tree.{at};
ghost use Rattle.fx_word.specs.Words.{IsWidth};

use crate::cell::{Cell, word_at};
use fx_word::Word;

/// Words of a program of `B` bits that stand one behind the other.
pub trait Words<const B: u32> {
    ghost words: { Self → List ℤ };

    /// Word `k`.
    fn word(&self, k: u32) -> Word<B>
        requires width { IsWidth B }
        requires within { k < length (words self.now) }
        requires are_words { All (IsWord B) (words self.now) }
        ensures { result ≡ at (pos 0) (words self.now) k };
}

/// Words in cells of one size.
#[derive(Clone, Copy, Debug)]
pub struct CellWords<'a, C>(pub &'a [C]);

impl<'a, const B: u32, C: Cell> Words<B> for CellWords<'a, C> {
    ghost use Rattle.std.specs.Prelude.{map};

    ghost words = { λ s. map C.whole s.0.now };

    #[inline(always)]
    fn word(&self, k: u32) -> Word<B> {
        word_at::<B, C>(self.0, k)
    }
}
