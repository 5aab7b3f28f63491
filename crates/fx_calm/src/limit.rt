//! What a number limits, thing by thing: starts, inputs, literals, sums over the terms of results, and errors.

ghost use Rattle.std.specs.Prelude.{◌≡◌, ◌+◌, ◌^◌, ◌<◌, ◌≤◌, ◌-ℤ◌, pos, length, IfOk};
ghost use Rattle.fx_rational.specs.Rational.{whole, plus, AtMost};
ghost use Rattle.fx_rational.specs.Decimal.{decimal_value};
ghost use Rattle.fx_model.specs.Tree.{at};
ghost use Rattle.fx_inequalities.specs.Accepted.{start_of};
ghost use Rattle.fx_expr.specs.TreeOf.{tree};
ghost use Rattle.fx_expr.specs.Parts.{input_of};
ghost use Rattle.fx_plan_laws.specs.Powers.{magnitude, is_below_power};
ghost use Rattle.fx_plan_laws.specs.Calm.{reach_of};
ghost use Rattle.fx_calm.specs.Summands.{IsSummand};
ghost use Rattle.fx_calm.specs.MagnitudeOf.{IsMagnitude, magnitude_value};
ghost use Rattle.fx_calm.specs.SumOf.{sum_value, IsSum, IsWeight};
ghost use Rattle.fx_calm.specs.LimitOf.{no_tree, first_result, result_count, count_of, is_within, IsTame, IsReady};

use crate::long_division::adds_up_to;
use crate::magnitude::{Magnitude, is_below, magnitude_of_decimal, reach, units};
use crate::sum::Sum;
use crate::summand::Summand;
use crate::terms::{literals_below, put_terms};
use fx_expr::{Expr, Function, Input};
use fx_lowering::{input_count, output_count, state_count};
use fx_num::{Memory, two_to};
use fx_weight::input_at;

/// What is limited.
#[derive(Clone, Copy, Debug, PartialEq, Eq)]
pub enum Limit {
    /// The starts of states, by `2^w`.
    Starts,
    /// What inputs reach, with their errors, by `2^w`.
    Inputs,
    /// The literals of results, by `2^w`.
    Literals,
    /// A sum over the terms of results, by `2^w`.
    Sums { sum: Sum },
    /// Twice the errors of inputs, by `2^(1 + w)` units `2^-f`.
    Errors { f: u32 },
}

/// How many results there are.
pub fn result_total(function: &Function) -> u32
    ensures { result ≡ length function.now.results }
{
    function.keeps();
    function.results.len() as u32
}

/// The first result of which the sum is limited.
fn first_result(function: &Function, sum: Sum) -> u32
    ensures { result ≡ first_result function.now sum }
{
    match sum {
        Sum::States => output_count(function),
        Sum::Sizes => 0,
        Sum::Adds => output_count(function),
        Sum::Values { .. } => 0,
    }
}

/// Of how many results it is.
fn result_count(function: &Function, sum: Sum) -> u32
    ensures { result ≡ result_count function.now sum }
{
    match sum {
        Sum::States => result_total(function).saturating_sub(output_count(function)),
        Sum::Sizes => result_total(function),
        Sum::Adds => result_total(function).saturating_sub(output_count(function)),
        Sum::Values { .. } => output_count(function),
    }
}

/// How many things are limited.
pub fn count(function: &Function, limit: Limit) -> u32
    ensures { result ≡ count_of function.now limit }
{
    match limit {
        Limit::Starts => state_count(function),
        Limit::Inputs => input_count(function),
        Limit::Literals => result_total(function),
        Limit::Sums { sum } => result_count(function, sum),
        Limit::Errors { .. } => input_count(function),
    }
}

/// The start of state `k`, without its sign.
pub fn start_at(function: &Function, k: u32) -> Magnitude
    requires { k < length function.now.states }
    ensures weight { IsWeight result }
    ensures value { magnitude_value result ≡ magnitude (start_of function.now k) }
{
    magnitude_of_decimal(function.states.as_slice()[k as usize].start)
}

/// Result `k`.
pub fn result_at(function: &Function, k: u32) -> &Expr
    requires { k < length function.now.results }
    ensures { tree result.now ≡ at no_tree function.now.results k }
{
    &function.results.as_slice()[k as usize]
}

/// `2^w`.
fn power(w: u32) -> u64
    requires { w ≤ 60 }
    ensures { result ≡ 2 ^ w }
{
    1 << w
}

/// A magnitude as a summand of a sum.
fn summand(x: Magnitude) -> Summand
    requires { IsMagnitude x }
    ensures summand { IsSummand result }
    ensures top { result.top ≡ x.top }
    ensures bottom { result.bottom ≡ x.bottom }
{
    Summand {
        top: u128::from(x.top),
        bottom: u128::from(x.bottom),
    }
}

/// Whether what an input reaches and its error add up to at most `2^w`.
fn is_input_below(summands: &mut Vec<Summand>, input: &Input, w: u32) -> Result<bool, Memory>
    requires error { AtMost (whole (pos 0)) (decimal_value input.now.err) }
    requires few { w ≤ 60 }
    ensures { IfOk result (λ r. r ≡ is_below_power (plus (reach_of (input_of input.now)) (input_of input.now).err)
        (pos w)) }
{
    summands.clear();
    summands.push(summand(reach(input)))?;
    summands.push(summand(magnitude_of_decimal(input.err)))?;
    Ok(adds_up_to(summands, power(w)))
}

/// Whether twice the error of an input is at most `2^(1 + w)` units `2^-f`.
fn is_error_below(input: &Input, f: u32, w: u32) -> bool
    requires error { AtMost (whole (pos 0)) (decimal_value input.now.err) }
    requires point { f ≤ 58 }
    requires few { w ≤ 60 }
    ensures { result ≡ is_below_power (plus (decimal_value input.now.err) (decimal_value input.now.err))
        (pos (1 + w) -ℤ pos f) }
{
    units(magnitude_of_decimal(input.err), f) <= two_to(w)
}

/// Whether the sum of result `k` is at most `2^w`.
fn is_sum_below(
    summands: &mut Vec<Summand>,
    function: &Function,
    sum: Sum,
    k: u32,
    w: u32,
) -> Result<bool, Memory>
    requires tame { IsTame function.now }
    requires sum { IsSum sum }
    requires within { k < length function.now.results }
    requires few { w ≤ 60 }
    ensures { IfOk result (λ r. r ≡ is_below_power (sum_value function.now sum (at no_tree function.now.results k))
        (pos w)) }
{
    function.keeps();
    summands.clear();
    put_terms(summands, function, sum, result_at(function, k))?;
    Ok(adds_up_to(summands, power(w)))
}

/// The number of the result that is limited at place `i`.
fn place(function: &Function, sum: Sum, i: u32) -> u32
    requires { i < result_count function.now sum }
    ensures value { result ≡ first_result function.now sum + i }
    ensures within { result < length function.now.results }
{
    function.keeps();
    first_result(function, sum) + i
}

/// Whether thing `i` is within the limit for `w`. Sums are formed in `summands`.
pub fn is_within(
    summands: &mut Vec<Summand>,
    function: &Function,
    limit: Limit,
    i: u32,
    w: u32,
) -> Result<bool, Memory>
    requires ready { IsReady function.now limit }
    requires within { i < count_of function.now limit }
    requires few { w ≤ 60 }
    ensures { IfOk result (λ r. r ≡ is_within function.now limit i w) }
{
    function.keeps();
    match limit {
        Limit::Starts => Ok(is_below(start_at(function, i), w)),
        Limit::Inputs => is_input_below(summands, input_at(function, i), w),
        Limit::Literals => Ok(literals_below(result_at(function, i), w)),
        Limit::Sums { sum } => is_sum_below(summands, function, sum, place(function, sum, i), w),
        Limit::Errors { f } => Ok(is_error_below(input_at(function, i), f, w)),
    }
}
