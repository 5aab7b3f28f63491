//! What is known of a function's nodes before they have points: ranges, affine forms, and the codes that points allow.
//!
//! # Contract
//!
//! `find_ranges` finds ranges with affine forms, and `has_code` whether a node has a code at a point. Nothing rests on
//! what it finds.
//!
//! # Inside
//!
//! A search for small certified bounds tries many forms of a function. Each try is a few passes over its node list.
//! This crate has the first: `find_ranges` gives each node an interval, and an affine form over the inputs where an
//! operand has one. A form keeps what plain intervals lose, that the same input stands in both operands; the narrower
//! of both is the node's range, and later nodes use it. That pays twice: narrower ranges allow finer points, and errors
//! of inputs cancel.
//!
//! Whoever chooses the points is given plain numbers: up to which point a range fits a word (`Ranges::cap`), sizes, and
//! whether a node has a code at a point (`has_code`). What the errors are then is worked out by `fx_planning`, of the
//! same numbers (`fx_search_numbers`).
//!
//! A mantissa that leaves 128 bits ends the attempt, never the search, and `Grids` has coarser grids to take then. The
//! trap: a point that a code can't have, as where a shift leaves its limits, is found before any error is.
#![tactic(auto)]

mod code;
mod coefficients;
mod form;
mod range;
mod ranges;
mod start;

pub use code::{codes_of, has_code};
pub use form::{Centre, Centres, Mix, RangeForm, mix_of, operands, weighted};
pub use range::{Unplanned, find_centred_ranges, find_ranges, find_ranges_in};
pub use ranges::Ranges;
pub use start::{start_error, start_range};
