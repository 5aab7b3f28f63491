//! The numbers of a calm function.
//!
//! Each is the least exponent at which a list of things is within a limit. What is tested before sums are formed keeps
//! their summands short: results have at most 64 terms, and inputs and literals are at most `2^25`. Of a function that
//! isn't so no number would leave room.

ghost use Rattle.std.specs.Prelude.{int_le, ◌≡◌, ◌+◌, ◌-◌, ◌<◌, ◌≤◌, ◌&&◌, ◌+ℤ◌, ◌-ℤ◌, ◌≤ℤ◌, max, pos, negsuc, true, length, Contains, IfOk, option_map};
ghost use Rattle.std.specs.List.{list_all};
ghost use Rattle.fx_model.specs.LawfulProgram.{widths};
ghost use Rattle.fx_plan_laws.specs.Demands.{allows};
ghost use Rattle.fx_plan_laws.specs.Calm.{is_short};
ghost use Rattle.fx_calm.specs.declared.limit.Limit.TheVariants.{Inputs, Literals};
ghost use Rattle.fx_calm.specs.LimitOf.{IsLeastOfBoth, IsTame};
ghost use Rattle.fx_calm.specs.NumbersOf.{numbers_view, calm_numbers, has_form, HasExponents};

use crate::least::{least, least_of_both};
use crate::limit::{Limit, result_at, result_total};
use crate::sum::Sum;
use crate::summand::Summand;
use crate::terms::is_short;
use fx_expr::Function;
use fx_lowering::{output_count, state_count};
use fx_num::Memory;
use fx_weight::{allows, demand_at};
use std::alloc::Global;

/// The numbers of a calm function: exponents of powers of two, but for the point.
#[derive(Clone, Copy, Debug, PartialEq, Eq)]
pub struct Numbers {
    /// Starts, and what a step adds to a state.
    pub q: u32,
    /// The sizes of a result's terms.
    pub a: u32,
    /// All values.
    pub m: u32,
    /// The point of all words.
    pub f: u32,
    /// What roundings come to, in units.
    pub p: u32,
    /// The errors of inputs.
    pub v: i32,
    /// The error of an output.
    pub z: i32,
}

/// Whether each result is linear, with at most 64 terms.
fn are_short(function: &Function) -> bool
    ensures { result ≡ list_all is_short function.now.results }
{
    for k in 0..result_total(function) {
        if !is_short(result_at(function, k)) {
            return false;
        }
    }
    true
}

/// How many temps there are.
fn temp_count(function: &Function) -> u32
    ensures { result ≡ length function.now.temps }
{
    function.keeps();
    function.temps.len() as u32
}

/// Whether there are no temps, some states, and short results alone.
fn has_form(function: &Function) -> bool
    ensures { result ≡ has_form function.now }
{
    if temp_count(function) > 0 {
        return false;
    }
    if state_count(function) == 0 {
        return false;
    }
    are_short(function)
}

/// Whether no output's demand asks for more than an error of `2^z`.
fn demands_allow(function: &Function, z: i32) -> bool
    requires low { negsuc 95 ≤ℤ z }
    requires high { z ≤ℤ pos 40 }
    ensures { result ≡ list_all (λ d. allows d z) function.now.demands }
{
    for j in 0..output_count(function) {
        if !allows(demand_at(function, j), z) {
            return false;
        }
    }
    true
}

/// The point of words of so many bits.
fn point(width: u32, m: u32) -> u32
    requires { 8 ≤ width }
    ensures { result ≡ width - 3 - m }
{
    (width - 3).saturating_sub(m)
}

/// The numbers of these exponents and this point.
fn numbers_at(q: u32, a: u32, m: u32, f: u32, p: u32, d: u32) -> Numbers
    requires sizes { a ≤ 60 }
    requires roundings { p ≤ 60 }
    requires point { f ≤ 60 }
    requires errors { d ≤ 60 }
    ensures { numbers_view result ≡ record {
      q = q;
      a = a;
      m = m;
      f = f;
      p = p;
      v = pos (1 + d) -ℤ pos f;
      z = pos (a + p + 5) +ℤ (pos (1 + d) -ℤ pos f);
    } }
{
    let v = 1 + d as i32 - f as i32;
    Numbers {
        q,
        a,
        m,
        f,
        p,
        v,
        z: (a + p + 5) as i32 + v,
    }
}

/// Whether the error of outputs is at most `2^m`, and each demand allows it.
fn has_room(function: &Function, c: Numbers) -> bool
    requires low { negsuc 95 ≤ℤ c.z }
    requires few { c.m ≤ 26 }
    ensures { result ≡ (int_le c.z (pos c.m) && list_all (λ d. allows d c.z) function.now.demands) }
{
    c.z <= c.m as i32 && demands_allow(function, c.z)
}

/// The numbers, where all exponents but those of errors are known.
fn with_errors(
    summands: &mut Vec<Summand>,
    function: &Function,
    width: u32,
    q: u32,
    a: u32,
    m: u32,
) -> Result<Option<Numbers>, Memory>
    requires width { Contains widths width }
    requires exponents { HasExponents function.now q a m }
    ensures { IfOk result (λ o. option_map numbers_view o ≡ calm_numbers width function.now) }
{
    function.keeps();
    let f = point(width, m);
    let p = a.max(m + 6);
    if p + 2 > f {
        return Ok(None);
    }
    let d = least(summands, function, Limit::Errors { f }, 0, 60)?;
    if d > 60 {
        return Ok(None);
    }
    let c = numbers_at(q, a, m, f, p, d);
    if has_room(function, c) {
        Ok(Some(c))
    } else {
        Ok(None)
    }
}

/// The numbers, where inputs and literals are at most `2^low`.
fn of_tame(
    summands: &mut Vec<Summand>,
    function: &Function,
    width: u32,
    low: u32,
) -> Result<Option<Numbers>, Memory>
    requires width { Contains widths width }
    requires form { has_form function.now ≡ true }
    requires low { IsLeastOfBoth function.now Inputs Literals 2 25 low }
    requires few { low ≤ 25 }
    requires tame { IsTame function.now }
    ensures { IfOk result (λ o. option_map numbers_view o ≡ calm_numbers width function.now) }
{
    function.keeps();
    if least(summands, function, Limit::Sums { sum: Sum::States }, 0, 0)? > 0 {
        return Ok(None);
    }
    let q = least_of_both(
        summands,
        function,
        Limit::Starts,
        Limit::Sums { sum: Sum::Adds },
        0,
        23,
    )?;
    if q > 23 {
        return Ok(None);
    }
    let a = least(summands, function, Limit::Sums { sum: Sum::Sizes }, 0, 56)?;
    if a > 56 {
        return Ok(None);
    }
    let values = Sum::Values { s: q + 2 };
    let w = least(
        summands,
        function,
        Limit::Sums { sum: values },
        low.max(q + 2),
        25,
    )?;
    if w > 25 {
        return Ok(None);
    }
    with_errors(summands, function, width, q, a, w + 1)
}

/// The numbers of a function that is calm at a width; none of any other.
pub fn find_numbers(
    alloc: Global,
    function: &Function,
    width: u32,
) -> Result<Option<Numbers>, Memory>
    requires { Contains widths width }
    ensures { IfOk result (λ o. option_map numbers_view o ≡ calm_numbers width function.now) }
{
    function.keeps();
    if !has_form(function) {
        return Ok(None);
    }
    let mut summands = Vec::new(alloc);
    let low = least_of_both(
        &mut summands,
        function,
        Limit::Inputs,
        Limit::Literals,
        2,
        25,
    )?;
    if low > 25 {
        return Ok(None);
    }
    of_tame(&mut summands, function, width, low)
}
