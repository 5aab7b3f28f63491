//! Exact whole numbers of 128 bits, exact dyadics over them, and intervals with dyadic ends.
//!
//! # Contract
//!
//! A dyadic is `m / 2^e`, kept as it was formed but for zero, which is always `0/2^0`. `dadd`, `dsub` and `dmul` give
//! Some exactly where each mantissa, after its alignment and in the result, fits 128 bits, and then the very dyadic of
//! the definition (one clause each, over `sum_fits` and `dyadic_sum` and so on); `dle` always answers; `round_down` and
//! `round_up` give the nearest on their side with at most `e` binary places; `floor_shift`, `ceil_shift` and
//! `left_fits` are exact for every shift, `add_fits` and `mul_fits` for every pair (None where the result leaves 128
//! bits); `two_to`, `signed_two_to` and `short_two_to` go to 2^126, 2^64 and 2^62, and `raised` shifts what is below
//! 2^62 by at most 64 places. `Dyadic::zero` is zero. What these definitions are for stands in `fx_rational`'s
//! `dyadic_laws`. For searches, `bits` counts a size's bits, `lowest` goes to lowest terms, of which no clause speaks,
//! and `Dyadic::checked` refuses an exponent above 2^20. `limits.rt` has the limits of functions, programs and
//! certificates, each once, as `fx_model/specs/Limits.antt` defines them.
//!
//! Of intervals, `iadd`, `isub` and `imul` give the sums of ends, their differences crosswise, and the least and the
//! greatest of their four products, None exactly where a mantissa on the way leaves 128 bits; `inside` compares ends,
//! `outward` rounds them apart, `least` and `greatest` are the lesser and the greater of two numbers, and
//! `Interval::zero` is zero alone. No order of the ends is kept.
//!
//! # Inside
//!
//! A certificate is a list of inequalities between numbers `m / 2^e`, each of which says that one interval lies in
//! another. All of its arithmetic is done here, and nothing wraps or rounds unless its name says so. These calls run
//! for every inequality of every certificate, so none allocates and none goes over bits one by one. The trap: a value
//! fits only if each mantissa does after its alignment too, so that a sum can be None though it's small.
#![tactic(auto)]

mod dyadic;
mod interval;
mod limits;
mod shift;

pub use dyadic::{Dyadic, dadd, dle, dmul, dsub, lowest, round_down, round_up};
pub use interval::{Interval, greatest, iadd, imul, inside, isub, least, outward};
pub use limits::{
    EXPONENT_LIMIT, GREATEST_POINT, HEIGHT_LIMIT, INPUT_LIMIT, LEAST_POINT, NODE_LIMIT,
    OUTPUT_LIMIT, PLACE_END, SOURCE_LIMIT, STATE_LIMIT, STEP_LIMIT, TEMP_LIMIT, TEMPLATE_LIMIT,
};
pub use shift::{
    add_fits, bits, ceil_shift, floor_shift, left_fits, mul_fits, raised, short_two_to,
    signed_two_to, two_to,
};
use std::alloc::{AllocError, AllocFailed};
use std::error::Error;
use std::fmt;

/// No memory was left. The only refusal of a call that can't fail otherwise.
#[derive(Clone, Copy, Debug, PartialEq, Eq)]
pub struct Memory;

impl fmt::Display for Memory {
    fn fmt<W: fmt::Write>(&self, f: &mut fmt::Formatter<W>) -> fmt::Result {
        f.write_str("out of memory")
    }
}

impl Error for Memory {}

impl From<AllocError> for Memory {
    fn from(_e: AllocError) -> Memory {
        Memory
    }
}

impl<T: Drop> From<AllocFailed<T>> for Memory {
    fn from(_e: AllocFailed<T>) -> Memory {
        Memory
    }
}
