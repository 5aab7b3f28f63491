//! The codes of nodes, all at one point.

ghost use Rattle.std.specs.Prelude.{◌≡◌, ◌<◌, ◌≤◌, length, map, pos, All, FitsSigned, IfOk};
ghost use Rattle.std.specs.Int.{w64};
ghost use Rattle.fx_rational.specs.Rational.{floor, scaled};
ghost use Rattle.fx_rational.specs.Decimal.{decimal_value};
ghost use Rattle.fx_inequalities.specs.Accepted.{start_of};
ghost use Rattle.fx_model.specs.Machine as machine;
ghost use Rattle.fx_flat.specs.NodeOf.{node_of, nodes_in};
ghost use Rattle.fx_program.specs.CodeView.{round_of, code_of};
ghost use Rattle.fx_plan_laws.specs.CalmPlan.{calm_code};
ghost use Rattle.fx_calm.specs.BoundOf.{HasWord};

use fx_expr::Function;
use fx_flat::Node;
use fx_fraction::{Decimal, quantise};
use fx_num::Memory;
use fx_program::{Code, Round};
use fx_weight::word_of;
use std::alloc::Global;

/// The start of state `k`.
fn start_at(function: &Function, k: u32) -> Decimal
    requires { k < length function.now.states }
    ensures { decimal_value result ≡ start_of function.now k }
{
    function.states.as_slice()[k as usize].start
}

/// A point as a shift.
fn shift(f: u32) -> i32
    requires { f ≤ 58 }
    ensures { result ≡ pos f }
{
    f as i32
}

/// Its floor in units `2^-f`.
fn start_floor(function: &Function, k: u32, f: u32) -> i128
    requires within { k < length function.now.states }
    requires point { f ≤ 58 }
    ensures { result ≡ floor (scaled (start_of function.now k) (pos f)) }
{
    quantise(start_at(function, k), shift(f))
}

/// The start word of state `k`.
fn start_word(function: &Function, k: u32, f: u32) -> i64
    requires within { k < length function.now.states }
    requires point { f ≤ 58 }
    requires fits { FitsSigned w64 (floor (scaled (start_of function.now k) (pos f))) }
    ensures { result ≡ floor (scaled (start_of function.now k) (pos f)) }
{
    start_floor(function, k, f) as i64
}

/// The product `a * b / 2^f`.
fn product(a: u32, b: u32, f: u32, round: Round) -> Code
    requires { 1 ≤ f }
    ensures { code_of result ≡ machine.Mul (round_of round) a b f }
{
    round.product_code(a, b, f)
}

/// The code of a node at point `f`.
fn code(node: Node, function: &Function, f: u32, round: Round) -> Code
    requires some { 1 ≤ f }
    requires point { f ≤ 58 }
    requires word { HasWord function.now f (node_of node) }
    ensures { code_of result ≡ calm_code (round_of round) function.now f (node_of node) }
{
    match node {
        Node::Input { k } => Code::Input { k, f: f as i32 },
        Node::State { k } => Code::State {
            k,
            f: f as i32,
            w: start_word(function, k, f),
        },
        Node::Const { c } => Code::Const {
            w: word_of(c, f as i32),
            f: f as i32,
        },
        Node::Neg { a } => Code::Neg { a },
        Node::Add { a, b } => Code::Add { a, b, sa: 0, sb: 0 },
        Node::Sub { a, b } => Code::Sub { a, b, sa: 0, sb: 0 },
        Node::Mul { a, b } => product(a, b, f, round),
        Node::Div { a, b } => Code::Div { a, b, s: 0 },
        Node::Copy { a } => Code::Copy { a, s: 0 },
    }
}

/// The codes of these nodes.
pub fn codes(
    alloc: Global,
    nodes: &[Node],
    function: &Function,
    f: u32,
    round: Round,
) -> Result<Vec<Code>, Memory>
    requires some { 1 ≤ f }
    requires point { f ≤ 58 }
    requires words { All (HasWord function.now f) (nodes_in nodes.now) }
    ensures { IfOk result (λ cs. map code_of cs.items
        ≡ map (calm_code (round_of round) function.now f) (nodes_in nodes.now)) }
{
    let mut codes = Vec::new(alloc);
    for i in 0..nodes.len() {
        codes.push(code(nodes[i], function, f, round))?;
    }
    Ok(codes)
}
