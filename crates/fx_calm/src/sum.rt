//! The sums that are compared with powers of two, and how often the size of a term counts in each.

ghost use Rattle.std.specs.Prelude.{◌≡◌, ◌≤◌, ◌^◌, pos};
ghost use Rattle.fx_rational.specs.Rational.{whole};
ghost use Rattle.fx_calm.specs.MagnitudeOf.{magnitude_value};
ghost use Rattle.fx_calm.specs.SumOf.{state_weight, literal_weight, input_weight, IsSum, IsWeight};

use crate::magnitude::{Magnitude, reach_at, whole};
use fx_expr::Function;

/// A sum over the terms of a tree.
#[derive(Clone, Copy, Debug, PartialEq, Eq)]
pub enum Sum {
    /// Twice the sizes of state terms.
    States,
    /// The sizes of input and state terms.
    Sizes,
    /// What a step adds to a state: the sizes of input terms, each times what its input reaches, and literals that
    /// stand alone.
    Adds,
    /// What an output comes to where states are at most `2^s`.
    Values { s: u32 },
}

/// `2^s`.
fn power(s: u32) -> Magnitude
    requires { s ≤ 25 }
    ensures weight { IsWeight result }
    ensures value { magnitude_value result ≡ whole (pos (2 ^ s)) }
{
    whole(1 << s)
}

/// Of a term of a state.
pub fn state_weight(sum: Sum) -> Magnitude
    requires { IsSum sum }
    ensures weight { IsWeight result }
    ensures value { magnitude_value result ≡ state_weight sum }
{
    match sum {
        Sum::States => whole(2),
        Sum::Sizes => whole(1),
        Sum::Adds => whole(0),
        Sum::Values { s } => power(s),
    }
}

/// Of a literal that stands alone.
pub fn literal_weight(sum: Sum) -> Magnitude
    ensures weight { IsWeight result }
    ensures value { magnitude_value result ≡ literal_weight sum }
{
    match sum {
        Sum::States => whole(0),
        Sum::Sizes => whole(0),
        Sum::Adds => whole(1),
        Sum::Values { .. } => whole(1),
    }
}

/// Of a term of input `k`.
pub fn input_weight(function: &Function, sum: Sum, k: u32) -> Magnitude
    ensures weight { IsWeight result }
    ensures value { magnitude_value result ≡ input_weight function.now sum k }
{
    match sum {
        Sum::States => whole(0),
        Sum::Sizes => whole(1),
        Sum::Adds => reach_at(function, k),
        Sum::Values { .. } => reach_at(function, k),
    }
}
