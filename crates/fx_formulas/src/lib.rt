//! Judging the comparisons of a certificate's conditions: formulas over dyadics and spans, evaluated in 128 bits.
//!
//! # Contract
//!
//! Each operation takes numbers or intervals that formulas come to, None where a mantissa leaves 128 bits; whatever
//! formulas its arguments come from, its clause says which formula the result is of (`Forms`, `FormsSpan`). Each
//! comparison says what the definition's claims come to (`judged`: Holds, Fails, or Beyond whatever the others say).
//! Products ask for formulas of at most 512 binary places, which those of lawful certificates are.
//!
//! # Inside
//!
//! The trap: an exponent. A product adds them, and `fx_num` keeps none above 2^20, so a product promises something of
//! short formulas alone, of which each condition's are.
#![tactic(auto)]

mod condition;
mod formula;
mod judgement;

pub use condition::{ConditionFault, ConditionKind, Part};
pub use formula::{
    clear, difference, ends, interval, is_above, is_at_most, is_below, lies_in, minus,
    near_roundoff, number, opposite, plus, point, product, quotient, reaches, reduced, roundoff,
    sum, times, unit, word_value, words, zero,
};
pub use judgement::{Judgement, fault, untrue};
