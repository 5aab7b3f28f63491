//! What stands at a place. Where there is nothing, the definitions' defaults stand.

ghost use Rattle.std.specs.Prelude.{◌≡◌, ◌<◌, length, pos};
ghost use Rattle.fx_rational.specs.Decimal.{decimal_value};
ghost use Rattle.fx_rational.specs.Dyadic.{zero_dyadic};
ghost use Rattle.fx_rational.specs.Rational.{whole};
ghost use Rattle.fx_model.specs.LawfulProgram.{IsPoint};
ghost use Rattle.fx_model.specs.Tree.{at};
ghost use Rattle.fx_inequalities.specs.Accepted.{no_state, output_code};
ghost use Rattle.fx_inequalities.specs.NodeConditions.{no_input};
ghost use Rattle.fx_c99.specs.CHeader.{point, input_word};

use fx_expr::Function;
use fx_fraction::{Decimal, quantise};
use fx_num::Dyadic;
use fx_program::Program;

// Zero.
fn zero() -> Decimal
    ensures { decimal_value result ≡ whole (pos 0) }
{
    Decimal { a: 0, b: 0 }
}

/// The lower end of input `k`'s range.
pub fn low_at(function: &Function, k: u32) -> Decimal
    ensures { decimal_value result ≡ (at no_input function.now.inputs k).lo }
{
    match function.inputs.as_slice().get(k as usize) {
        Some(input) => input.lo,
        None => zero(),
    }
}

/// The upper end of input `k`'s range.
pub fn high_at(function: &Function, k: u32) -> Decimal
    ensures { decimal_value result ≡ (at no_input function.now.inputs k).hi }
{
    match function.inputs.as_slice().get(k as usize) {
        Some(input) => input.hi,
        None => zero(),
    }
}

/// The name of input `k`.
pub fn input_name(function: &Function, k: u32) -> &[u8]
    ensures { result.now ≡ (at no_input function.now.inputs k).name }
{
    match function.inputs.as_slice().get(k as usize) {
        Some(input) => input.name.as_str().as_bytes(),
        None => b"",
    }
}

/// The name of state `k`.
pub fn state_name(function: &Function, k: u32) -> &[u8]
    ensures { result.now ≡ (at no_state function.now.states k).name }
{
    match function.states.as_slice().get(k as usize) {
        Some(state) => state.name.as_str().as_bytes(),
        None => b"",
    }
}

/// Word `k`.
pub fn word_at(words: &[i64], k: u32) -> i64
    ensures { result ≡ at (pos 0) words.now k }
{
    match words.get(k as usize) {
        Some(word) => *word,
        None => 0,
    }
}

/// Bound `j`.
pub fn bound_at(bounds: &[Dyadic], j: u32) -> Dyadic
    ensures { result ≡ at zero_dyadic bounds.now j }
{
    match bounds.get(j as usize) {
        Some(bound) => *bound,
        None => Dyadic::zero(),
    }
}

/// The program's name.
pub fn title(program: &Program) -> &[u8]
    ensures { result.now ≡ program.now.name }
{
    program.name.as_str().as_bytes()
}

/// The point of code `n`.
pub fn point_at(program: &Program, n: u32) -> i32
    requires { n < length program.now.codes }
    ensures value { result ≡ point program.now n }
    ensures range { IsPoint result }
{
    program.keeps();
    program.point(n)
}

/// The word of an input's value at a point.
pub fn word_of(value: Decimal, f: i32) -> i128
    requires { IsPoint f }
    ensures { result ≡ input_word (decimal_value value) f }
{
    quantise(value, f)
}

/// The code of output `j`'s copy.
pub fn output_code(program: &Program, j: u32) -> u32
    requires { j < program.now.outputs }
    ensures place { result ≡ output_code program.now j }
    ensures within { result < length program.now.codes }
{
    program.keeps();
    program.codes.len() as u32 - (program.outputs + program.states) + j
}
