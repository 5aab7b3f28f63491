//! The C99 text of a program: how its statements are written, and what they do.
//!
//! # Contract
//!
//! How the statements of `fx_statements` are written as C99, in how many bits each computes, and what C makes of them:
//! nothing wherever C leaves it undefined or to the compiler, so that what has a meaning there panics, overflows and
//! shifts nowhere else either. `one_reading_law`, `does_once_law`: one text has one list of statements and one of start
//! words. `floored_law`: the helping function that divides by a power of two rounds down, below 0 too. `reset_law`,
//! `step_law`, `run_law`: the reset writes the start words, and from there on the text gives the machine's step and run
//! wherever each word lies in its width; `certified_c_law`: at the least widths, over all rows in range. Beside it
//! stands its header: macros, which `#if` can use too, and the declarations. `header_law`: that of what is certified
//! says each input's point and the words of the ends of its range, each state's point and start word, and each output's
//! point and bound, in numbers that C reads as these. `input_word_law`: such words are those that a step is given;
//! `range_law`: a word lies between those of the ends exactly where a value of the range has it.
//!
//! # Inside
//!
//! `specs/` has the definitions: `Working` says in how many bits a statement computes, `CText` how it is written, and
//! `CMeaning` what it does. The statements are those of `fx_statements`; `OfProgram` says which a program has.
//! `CHeader` has the text of the header beside it, and `CHeaderMeaning` what that says. Nothing here runs: the
//! functions below have empty bodies, and each carries a law, of which `Laws` has the words. The trap: a shift to the
//! left is no form of C here, since C leaves it undefined below 0, so a word is multiplied by a power of two.
#![tactic(auto)]

ghost use Rattle.fx_c99.specs.Laws.{FlooredLaw, ResetLaw, StepLaw, RunLaw, CertifiedLaw, OneReadingLaw, DoesOnceLaw, TextLaw, HeaderLaw, InputWordLaw, RangeLaw};

use fx_sound::start_law;
use fx_widths::{least_law, own_width_law};

/// One text has one list of statements and one of start words, so that what a text does is well said.
pub fn one_reading_law()
    ensures { OneReadingLaw }
{}

/// What a text does is one thing.
pub fn does_once_law()
    ensures { DoesOnceLaw }
{}

/// The helping function rounds down, below 0 too.
pub fn floored_law()
    ensures { FlooredLaw }
{}

/// The reset writes the start words, whatever stood there.
pub fn reset_law()
    ensures { ResetLaw }
{}

/// Where the machine's step isn't stuck and each word lies in its width, the C text does that step.
pub fn step_law()
    ensures { StepLaw }
{}

/// Over any rows, from the reset on, the C text gives the machine's run.
pub fn run_law()
    ensures { RunLaw }
{}

/// The C text at the least widths gives the machine's run, over all rows in range.
pub fn certified_c_law()
    ensures { CertifiedLaw }
{
    least_law();
    own_width_law();
    run_law();
}

/// A lawful program's C text does the machine's steps, wherever each word lies in its width.
pub fn text_law()
    ensures { TextLaw }
{}

/// The header of what is certified says its points, words and bounds.
pub fn header_law()
    ensures { HeaderLaw }
{
    start_law();
    fx_sound::step_law();
}

/// The words that a step is given are those of its inputs' values.
pub fn input_word_law()
    ensures { InputWordLaw }
{}

/// A word lies between those of a range's ends exactly where a value of the range has it.
pub fn range_law()
    ensures { RangeLaw }
{}
