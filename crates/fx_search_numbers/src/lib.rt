//! The numbers that a search counts with: intervals of two mantissas over one exponent, their grids, and rounded
//! numbers.
//!
//! # Contract
//!
//! Intervals over one exponent (`FixedInterval`), grids with how many places a range or an error is kept, the words of
//! literals, and rounded numbers that rank choices (`Rounded`). Nothing is promised but that each call returns. Numbers
//! that leave 128 bits end an attempt and nothing else.
//!
//! # Inside
//!
//! A certificate's intervals have a dyadic for each end. Here both ends share an exponent, since a search adds and
//! compares more than it writes. Fractions and decimals come onto grids (`range_between`), with the words of literals
//! (`nearest`), what those err (`word_error`), and what a width holds (`fits_word`).
//!
//! No number has a floating point. A long formula is written with `MaybeInterval`, whose operations take none as well.
//! The trap: intervals are exact, and grow by each product, unless somebody rounds them (`Grids::rounded`,
//! `FixedInterval::outward`).
#![tactic(auto)]

mod fixed_interval;
mod grid;
mod literal;
mod maybe;
mod rounded;
mod rounded_interval;

pub use fixed_interval::{FixedInterval, product};
pub use grid::Grids;
pub use literal::{
    ceil_at, fits_word, floor_at, input_error, nearest, range_between, range_of, reading_error,
    unit_on, word_at, word_error,
};
pub use maybe::MaybeInterval;
pub use rounded::Rounded;
pub use rounded_interval::RoundedInterval;
