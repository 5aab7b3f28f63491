//! Numbers and intervals on binary grids.
//!
//! # Contract
//!
//! Grid `e` are the dyadics with at most `e` binary places, in lowest terms. There are two halves. **To a grid**:
//! `down` and `up` of a dyadic, `down_fraction` and `up_fraction`, and `down_quotient` and `up_quotient` of a quotient
//! that counts units of the grid give exactly the greatest on the grid that isn't above, and the least that isn't
//! below. `wide_down`, `wide_up` and `quotient_less` (down, and a unit of the point less), whose floors may have more
//! than 128 bits, do so too, or None where the mantissa has more than 62 bits (`IsEnd`). `error_grid` is the grid of
//! the errors at a point, `split` a point by its size, `is_small` whether a mantissa has at most 62 bits. **The
//! narrowest interval**: `round_outward` (round what a formula comes to), `between` (two fractions),
//! `range_quotient`, and `literal_error`, `input_error` and `quotient_error` on the grid of a point give exactly the
//! narrowest interval that the definition `narrowest` has, or why there is none (`Why`), though what it is cut from may
//! have more than 128 bits (`narrow_law`: it lies inside each other on the grid that holds the bounds). `floor_at` is
//! the word of a literal; `plus` and `times` add and multiply intervals, by no test where mantissas are short and
//! exponents near. Who uses it: `fx_analysis` makes the plain attempt of it, `fx_template` rounds the bounds of
//! templates by it, and of the calm plan `fx_plan_laws` needs its lowest terms and `fx_calm` these, rounding up and the
//! two numbers of a fraction.
//!
//! # Inside
//!
//! Of a quotient whose floor may have more than 128 bits the whole part and the binary places are kept apart. The ends
//! of a narrowest interval are rounded apart, and only where both mantissas have at most 62 bits and its claims fit.
//! The traps: a number formed here may be long and its lowest terms short, so nothing is dropped before it is in lowest
//! terms; and an end is None only where its mantissa is longer than 62 bits, so a None is the definition's answer too,
//! and never stands for an end that was hard to find.
#![tactic(auto)]

mod divide;
mod exact;
mod fault;
mod grid;
mod number;
mod parts;
mod place;
mod quotient;
mod rounding;
mod short;
mod wide;

ghost use Rattle.fx_outward.specs.Laws.{NarrowLaw};

pub use divide::quotient_error;
pub use exact::{floor_at, input_error, literal_error};
pub use fault::Why;
pub use grid::{down, exponent, is_small, mantissa, up};
pub use number::{
    denominator, down_fraction, down_quotient, left, negate, numerator, up_fraction, up_quotient,
    whole,
};
pub use parts::quotient_less;
pub use place::{Place, grid as error_grid, split};
pub use quotient::{between, quotient as range_quotient};
pub use rounding::round_outward;
pub use short::{plus, times};
pub use wide::{opposite, rest, signed, wide_down, wide_up};

/// The narrowest interval on a grid.
pub fn narrow_law()
    ensures { NarrowLaw }
{}
