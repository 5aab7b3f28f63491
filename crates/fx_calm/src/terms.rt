//! The terms of linear trees, as summands of exact sums.

ghost use Rattle.std.specs.Prelude.{◌≡◌, ◌+◌, ◌*◌, ◌<◌, ◌≤◌, ◌++◌, ◌∷◌, [], map, All, pos, OnOk};
ghost use Rattle.fx_rational.specs.Rational.{whole};
ghost use Rattle.fx_expr.specs.TreeOf.{tree};
ghost use Rattle.fx_plan_laws.specs.Powers.{power_value};
ghost use Rattle.fx_plan_laws.specs.Linear.{is_scaled, scaled_term, terms_of, are_literals_below};
ghost use Rattle.fx_plan_laws.specs.Calm.{is_short};
ghost use Rattle.fx_calm.specs.MagnitudeOf.{IsMagnitude, magnitude_value};
ghost use Rattle.fx_calm.specs.SumOf.{weight_of, size_of, summand_of, IsSum, IsWeight, IsNarrowSummand};
ghost use Rattle.fx_calm.specs.TermOf.{term_view, IsSized, IsRoomAfter};

use crate::magnitude::{Magnitude, is_below, magnitude_of, whole};
use crate::sum::{Sum, input_weight, literal_weight, state_weight};
use crate::summand::Summand;
use fx_expr::{Expr, Function};
use fx_num::Memory;

/// A term of a linear tree; its size has no sign.
#[derive(Clone, Copy, Debug)]
pub enum Term {
    /// A literal that stands alone.
    Alone { size: Magnitude },
    /// `size` times input `k`.
    OfInput { k: u32, size: Magnitude },
    /// `size` times state `k`.
    OfState { k: u32, size: Magnitude },
}

/// The room that is left by the terms of a tree; none where it isn't linear, or has more terms.
fn room_after(e: &Expr, room: u32) -> Option<u32>
    ensures { IsRoomAfter result room (tree e.now) }
{
    match e {
        Expr::Lit(_) => room.checked_sub(1),
        Expr::Input(_) => room.checked_sub(1),
        Expr::State(_) => room.checked_sub(1),
        Expr::Temp(_) => None,
        Expr::Neg(a) => room_after(a, room),
        Expr::Add(a, b) => match room_after(a, room) {
            Some(left) => room_after(b, left),
            None => None,
        },
        Expr::Sub(a, b) => match room_after(a, room) {
            Some(left) => room_after(b, left),
            None => None,
        },
        Expr::Mul(a, b) => {
            if is_scaled(a, b) {
                room.checked_sub(1)
            } else {
                None
            }
        }
        Expr::Div(..) => None,
    }
}

/// Whether a tree is linear, with at most 64 terms.
pub fn is_short(e: &Expr) -> bool
    ensures { result ≡ is_short (tree e.now) }
{
    room_after(e, 64).is_some()
}

/// Whether each literal of a tree is at most `2^w`, without its sign.
pub fn literals_below(e: &Expr, w: u32) -> bool
    requires { w ≤ 64 }
    ensures { result ≡ are_literals_below (power_value (pos w)) (tree e.now) }
{
    match e {
        Expr::Lit(c) => is_below(magnitude_of(*c), w),
        Expr::Input(_) => true,
        Expr::State(_) => true,
        Expr::Temp(_) => true,
        Expr::Neg(a) => literals_below(a, w),
        Expr::Add(a, b) => literals_below(a, w) && literals_below(b, w),
        Expr::Sub(a, b) => literals_below(a, w) && literals_below(b, w),
        Expr::Mul(a, b) => literals_below(a, w) && literals_below(b, w),
        Expr::Div(a, b) => literals_below(a, w) && literals_below(b, w),
    }
}

/// Whether a product is a literal times an input or a state.
fn is_scaled(a: &Expr, b: &Expr) -> bool
    ensures { result ≡ is_scaled (tree a.now) (tree b.now) }
{
    match (a, b) {
        (Expr::Lit(_), Expr::Input(_)) => true,
        (Expr::Lit(_), Expr::State(_)) => true,
        (Expr::Input(_), Expr::Lit(_)) => true,
        (Expr::State(_), Expr::Lit(_)) => true,
        _ => false,
    }
}

/// The term of a product.
fn product_term(a: &Expr, b: &Expr) -> Term
    ensures value { term_view result ≡ scaled_term (tree a.now) (tree b.now) }
    ensures sized { IsSized result }
{
    match (a, b) {
        (Expr::Lit(c), Expr::Input(k)) => Term::OfInput {
            k: *k,
            size: magnitude_of(*c),
        },
        (Expr::Lit(c), Expr::State(k)) => Term::OfState {
            k: *k,
            size: magnitude_of(*c),
        },
        (Expr::Input(k), Expr::Lit(c)) => Term::OfInput {
            k: *k,
            size: magnitude_of(*c),
        },
        (Expr::State(k), Expr::Lit(c)) => Term::OfState {
            k: *k,
            size: magnitude_of(*c),
        },
        _ => Term::Alone { size: whole(0) },
    }
}

/// How often its size counts.
fn weight_of(function: &Function, sum: Sum, term: Term) -> Magnitude
    requires { IsSum sum }
    ensures weight { IsWeight result }
    ensures value { magnitude_value result ≡ weight_of function.now sum (term_view term) }
{
    match term {
        Term::Alone { .. } => literal_weight(sum),
        Term::OfInput { k, .. } => input_weight(function, sum, k),
        Term::OfState { .. } => state_weight(sum),
    }
}

/// Its size.
fn term_size(term: Term) -> Magnitude
    requires { IsSized term }
    ensures size { IsMagnitude result }
    ensures value { magnitude_value result ≡ size_of (term_view term) }
{
    match term {
        Term::Alone { size } => size,
        Term::OfInput { size, .. } => size,
        Term::OfState { size, .. } => size,
    }
}

/// A size that counts so often.
fn product(size: Magnitude, weight: Magnitude) -> Summand
    requires size { IsMagnitude size }
    requires weight { IsWeight weight }
    ensures narrow { IsNarrowSummand result }
    ensures top { result.top ≡ size.top * weight.top }
    ensures bottom { result.bottom ≡ size.bottom * weight.bottom }
{
    Summand {
        top: u128::from(size.top) * u128::from(weight.top),
        bottom: u128::from(size.bottom) * u128::from(weight.bottom),
    }
}

/// A term as a summand of the sum.
fn summand_of(function: &Function, sum: Sum, term: Term) -> Summand
    requires sum { IsSum sum }
    requires sized { IsSized term }
    ensures narrow { IsNarrowSummand result }
    ensures value { result ≡ summand_of function.now sum (term_view term) }
{
    product(term_size(term), weight_of(function, sum, term))
}

/// Appends a term.
fn put_term(
    summands: &mut Vec<Summand>,
    function: &Function,
    sum: Sum,
    term: Term,
) -> Result<(), Memory>
    requires sum { IsSum sum }
    requires sized { IsSized term }
    ensures put { OnOk result
        (summands.new.items ≡ summands.old.items ++ summand_of function.now sum (term_view term) ∷ []) }
    ensures narrow { OnOk result (All IsNarrowSummand summands.old.items → All IsNarrowSummand summands.new.items) }
{
    summands.push(summand_of(function, sum, term))?;
    Ok(())
}

/// Appends the terms of a tree, from left to right.
pub fn put_terms(
    summands: &mut Vec<Summand>,
    function: &Function,
    sum: Sum,
    e: &Expr,
) -> Result<(), Memory>
    requires { IsSum sum }
    ensures put { OnOk result
        (summands.new.items ≡ summands.old.items ++ map (summand_of function.now sum) (terms_of (tree e.now))) }
    ensures narrow { OnOk result (All IsNarrowSummand summands.old.items → All IsNarrowSummand summands.new.items) }
{
    match e {
        Expr::Lit(c) => put_term(
            summands,
            function,
            sum,
            Term::Alone {
                size: magnitude_of(*c),
            },
        ),
        Expr::Input(k) => put_term(
            summands,
            function,
            sum,
            Term::OfInput {
                k: *k,
                size: whole(1),
            },
        ),
        Expr::State(k) => put_term(
            summands,
            function,
            sum,
            Term::OfState {
                k: *k,
                size: whole(1),
            },
        ),
        Expr::Temp(_) => Ok(()),
        Expr::Neg(a) => put_terms(summands, function, sum, a),
        Expr::Add(a, b) => {
            put_terms(summands, function, sum, a)?;
            put_terms(summands, function, sum, b)
        }
        Expr::Sub(a, b) => {
            put_terms(summands, function, sum, a)?;
            put_terms(summands, function, sum, b)
        }
        Expr::Mul(a, b) => put_term(summands, function, sum, product_term(a, b)),
        Expr::Div(..) => Ok(()),
    }
}
