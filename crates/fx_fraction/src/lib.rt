//! Exact decimals and fractions, and the text of words.
//!
//! # Contract
//!
//! `read_decimal` gives exactly the decimal that a text spells, and Malformed or TooLong exactly where the text isn't a
//! number or no `Decimal` has its value (`reading_law` ties the definition to numbers as they are written);
//! `read_natural` gives the number of some digits, and the greatest of 64 bits for what is greater. `quantise` is the
//! floor of `d * 2^f`; `decimal_text` writes the one spelling of a word's value; a `Range`, made once of two ends and
//! an error, `contains` just the decimals from the lower end less the error to the upper end and the error more
//! (`IsRangeOf`); `fadd`, `fsub`, `fmul`, `fdiv` give the result in lowest terms exactly where that keeps the limits
//! (`fx_rational::lowest_law`: a rational has one such spelling); `dyadic_le` and `dyadic_ge` answer exactly where `m *
//! q` fits 128 bits.
//!
//! # Inside
//!
//! Every number that a user writes is a `Decimal`, every constant of a formula a `Fraction`; both have one spelling as
//! a struct, so that `==` is equality of values. A call gives the exact value, or `None` or a fault exactly where that
//! leaves the limits: nothing is rounded but by `quantise`, which gives the floor. Nothing here allocates.
//!
//! The trap: a `None` speaks of the result in lowest terms, never of a number on the way to it.
#![tactic(auto)]

mod arithmetic;
mod comparison;
mod decimal;
mod fault;
mod fewest;
mod fraction;
mod limits;
mod quantised;
mod range;
mod read;
pub mod reading_law;
mod short;
mod significant;
mod text;

pub use arithmetic::{fadd, fdiv, fmul, fneg, fsub, to_fraction};
pub use comparison::{dyadic_ge, dyadic_le};
pub use decimal::{Decimal, signed, ten_to};
pub use fault::NumberFault;
pub use fewest::fewest_places;
pub use fraction::Fraction;
pub use quantised::quantise;
pub use range::{Range, within};
pub use read::{read_decimal, read_natural};
pub use text::decimal_text;
