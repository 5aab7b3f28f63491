//! Numbers that proofs speak of: rationals without bound, what is written of them as dyadics, intervals and decimals,
//! and the laws of whole numbers below them.
//!
//! # Contract
//!
//! `equality_law`, `order_law`, `operations_law`, `quotient_law`, `monotone_law`, `interval_law`, `error_law`,
//! `floor_law`, `scaling_law`, `lowest_law`. `dyadic_laws`: the value of a dyadic sum is the sum of the values, a
//! rounding is the nearest on its side, a sum, difference or product of intervals holds that of any member of the one
//! and any of the other. `gcd_laws`: Euclid's algorithm gives the gcd, and equal fractions in lowest terms are spelled
//! alike.
//!
//! # Inside
//!
//! Nothing here runs: the functions below have empty bodies, and each carries a law of the definitions of `specs/`. A
//! polynomial identity over ℤ is one line of a proof (`proofs/IntegerRing`, and `proofs/Quote`, which quotes a term for
//! it), and one over rationals is another (`proofs/Ring`): cross multiplication makes it one over whole numbers.
#![tactic(auto)]

pub mod dyadic_laws;
pub mod gcd_laws;
pub mod lowest_law;
mod rational_laws;

pub use rational_laws::{
    equality_law, error_law, floor_law, interval_law, monotone_law, operations_law, order_law,
    quotient_law, scaling_law,
};
