//! The program of a function with given codes, which are lawful.

ghost use Rattle.std.specs.Prelude.{◌≡◌, length, map, IfOk};
ghost use Rattle.fx_model.specs.Function.{outputs};
ghost use Rattle.fx_model.specs.LawfulProgram.{IsLawfulProgram};
ghost use Rattle.fx_model.specs.Machine.{points_of};
ghost use Rattle.fx_program.specs.CodeView.{round_of, code_of};
ghost use Rattle.fx_lowering.specs.OfFunction.{program_for};

use fx_expr::Function;
use fx_num::Memory;
use fx_program::{Code, Program, Round, code_points};
use std::alloc::Global;

/// How many inputs a function has.
pub fn input_count(function: &Function) -> u32
    ensures { result ≡ length function.now.inputs }
{
    function.keeps();
    function.inputs.len() as u32
}

/// How many states.
pub fn state_count(function: &Function) -> u32
    ensures { result ≡ length function.now.states }
{
    function.keeps();
    function.states.len() as u32
}

/// How many outputs.
pub fn output_count(function: &Function) -> u32
    ensures { result ≡ outputs function.now }
{
    function.keeps();
    function.demands.len() as u32
}

/// The program of a function with these codes, in words of `width` bits and of the version that the rounding came with,
/// where `points` are those of the codes.
pub(crate) fn program_at(
    alloc: Global,
    function: &Function,
    width: u32,
    round: Round,
    codes: Vec<Code>,
    points: Vec<i32>,
) -> Result<Program, Memory>
    requires lawful { IsLawfulProgram (program_for width (round_of round) function.now (map code_of codes.items)) }
    requires points { points.items ≡ points_of (map code_of codes.items) }
    ensures { IfOk result
        (λ p. p ≡ program_for width (round_of round) function.now (map code_of codes.items)) }
{
    function.keeps();
    let name = function.name.copy(alloc)?;
    let inputs = input_count(function);
    let states = state_count(function);
    let outputs = output_count(function);
    Ok(Program::new(
        round.first_version(),
        width,
        name,
        inputs,
        states,
        outputs,
        codes,
        points,
    ))
}

/// The program of a function with these codes, whose points are worked out here.
pub fn program_for(
    alloc: Global,
    function: &Function,
    width: u32,
    round: Round,
    codes: Vec<Code>,
) -> Result<Program, Memory>
    requires { IsLawfulProgram (program_for width (round_of round) function.now (map code_of codes.items)) }
    ensures { IfOk result
        (λ p. p ≡ program_for width (round_of round) function.now (map code_of codes.items)) }
{
    let points = code_points(alloc, &codes)?;
    program_at(alloc, function, width, round, codes, points)
}
