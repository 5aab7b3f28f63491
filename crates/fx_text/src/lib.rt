//! Lines, fields, whole numbers and dyadics of the project's texts, and the number that stands first in a row's text:
//! how each is read, and how it is printed.
//!
//! # Contract
//!
//! Each field reader gives what its definition (`number_at`, `place_at`, `count_at`, `dyadic_at` and so on) reads,
//! value and rest or first fault, over numbers without bound; each printer appends exactly its field behind a space, or
//! its line, but for want of memory. Each value has one spelling (`number_law` to `line_law`, as `IsOneSpelling`;
//! `whole_law`, `integer_law` and `word_law` by two clauses, `takes` and `again`): what is read is what is printed of
//! it and lies in its range, and that is read again. Lemmas on `many` and `line_by` carry this to so many values and to
//! lines; `read_more_lines` has the loop over lines of one kind, for every `LineReader`. The readers of programs,
//! certificates and bundles are built of these.
//!
//! `leading_decimal` reads a number of up to 19 digits, without plus and power of ten, where it stands; any other is
//! cut at its comma and goes to `read_decimal`. It answers the decimal and where it ends: the text up to there is that
//! decimal's, and there a comma stands or the text ends (`IsLeading`). Of None no clause speaks: it comes where the
//! text up to the comma is no number, or one that no `Decimal` has.
//!
//! # Inside
//!
//! A program, a certificate and a bundle are lines of fields. What all of them share stands here once, so that a reader
//! of one more line is a chain of `?` and its proof a few lines. Each reader is tied to a definition of `specs/`, which
//! is over numbers without bound: what the code cuts off at 64 bits is still told apart as a number that is out of
//! range. The trap: the first fault decides, so a field's spelling is tested before its range, and a line feed before
//! any field.
//!
//! A row's number ends at a comma or at the end of the line. No comma is sought before it: sign, digits, point and
//! digits are read, eight bytes at a time behind the point, and what stands behind them is looked at.
#![tactic(auto)]

mod cut;
mod digits;
mod fault;
mod field;
mod law;
mod leading;
mod line;
mod lines;
mod numeral;
mod print;

pub use cut::{Fields, cut_at, line_at};
pub use fault::{TextFault, TextKind};
pub use field::{count, dyadic, dyadics, ended, interval, number, place, small, word};
pub use law::{
    count_law, dyadic_law, dyadics_law, integer_law, interval_law, line_law, line_text_law,
    number_law, place_law, whole_law, word_law,
};
pub use leading::leading_decimal;
pub use line::{fields_at, text_ended};
pub use lines::{LineReader, read_lines, read_more_lines};
pub use numeral::{integer, whole};
pub use print::{
    begin_line, end_line, put_dyadic, put_dyadics, put_four, put_interval, put_number, put_one,
    put_three, put_two, put_word,
};
