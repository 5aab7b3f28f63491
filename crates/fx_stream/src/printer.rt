//! What is printed of lines that come one at a time.
//!
//! A printer may hold text back, so that several rows can go through a program together. It prints what it holds when
//! it is told to put it, which it is before each read that might wait. The trap: where a page has no room nothing is
//! held back, so that what is written between two rows is always the text of whole lines.
ghost use Rattle.std.specs.Prelude.{◌≡◌, ◌⊎◌, ℕ, List, [], ◌∷◌, ◌++◌, ◌<◌, length, option_map, IfOk, IfErr, OnOk};
ghost use Rattle.fx_model.specs.Limits.{line_limit};
ghost use Rattle.fx_stream.specs.Rooms.{HasRoom};
ghost use Rattle.fx_stream.specs.Outcome.{Outcome, behind_lines, behind_text, one, stopped_lines, IfBad};

use crate::page::Page;

/// Why a line stops the run.
#[derive(Clone, Copy, Debug, PartialEq, Eq)]
pub enum Stop<F> {
    /// The line is bad.
    Bad(F),
    /// No memory was left.
    Memory,
}

/// A printer of lines, which has seen some. What it will print is a matter of what it holds back and of the lines to
/// come.
pub trait Printer {
    /// What may be wrong with a line.
    type Flaw: Drop;

    // What definitions call that.
    ghost Told: { Type 0 };

    ghost told: { Self.Flaw → Told };

    // Whether it may take a line.
    ghost can_take: { Self → Type 0 };

    // Whether nothing is held back.
    ghost holds_none: { Self → Type 0 };

    // What is held back, and what comes of these lines, if they are the next ones and the last.
    ghost outcome: { Self → List (List ℕ) → Outcome Told };

    /// Takes the next line, appends what is printed now, and says whether it was a row. What was held back is printed
    /// before a bad line stops the run.
    fn take(&mut self, line: &[u8], page: &mut Page) -> Result<bool, Stop<Self::Flaw>>
        requires can { can_take self.old }
        requires room { HasRoom page.old }
        ensures can { OnOk result (can_take self.new) }
        ensures held { OnOk result (holds_none self.new ⊎ (page.new ≡ page.old)) }
        ensures taken { IfOk result (λ is_row. (text : List ℕ) × (page.new ≡ page.old ++ text)
            × ((rest : List (List ℕ)) →
            outcome self.old (line.now ∷ rest) ≡ behind_lines 1 text (one is_row) (outcome self.new rest))) }
        ensures bad { IfErr result (IfBad (λ fault. (text : List ℕ) × (page.new ≡ page.old ++ text)
            × ((rest : List (List ℕ)) →
            outcome self.old (line.now ∷ rest) ≡ behind_text text (stopped_lines (told fault))))) };

    /// Appends what is held back.
    fn put_held(&mut self, page: &mut Page)
        requires can { can_take self.old }
        requires room { holds_none self.old ⊎ HasRoom page.old }
        ensures can { can_take self.new }
        ensures none_held { holds_none self.new }
        ensures put { (text : List ℕ) × (page.new ≡ page.old ++ text)
            × ((rest : List (List ℕ)) → outcome self.old rest ≡ behind_text text (outcome self.new rest)) };

    /// What is wrong with a line that is longer than a line may be, whatever it holds.
    fn too_long(&self) -> Self::Flaw
        ensures { holds_none self.now → (line : List ℕ) (rest : List (List ℕ)) → line_limit < length line
            → outcome self.now (line ∷ rest) ≡ stopped_lines (told result) };

    /// What is wrong where no line is left.
    fn end(&self) -> Option<Self::Flaw>
        ensures { (outcome self.now []).bad ≡ option_map (λ f. (0, told f)) result };

    // Where nothing is held back and no line is left nothing is printed.
    ghost none: { (s : Self) → holds_none s → ((outcome s []).text ≡ []) × ((outcome s []).rows ≡ 0) };
}
