//! The bounds of a list of nodes.

ghost use Rattle.std.specs.Prelude.{◌≡◌, ◌<◌, ◌≤◌, length, All, IfOk};
ghost use Rattle.fx_model.specs.Tree.{at};
ghost use Rattle.fx_model.specs.Nodes.{nodes_of};
ghost use Rattle.fx_inequalities.specs.NodeConditions.{no_input};
ghost use Rattle.fx_flat.specs.NodeOf.{node_of, nodes_in};
ghost use Rattle.fx_flat.specs.InPlace.{IsInPlace};
ghost use Rattle.fx_plan_laws.specs.Bounds.{no_bound, input_bound};
ghost use Rattle.fx_plan_laws.specs.CalmPlan.{node_bound, bounds_of};
ghost use Rattle.fx_calm.specs.NumbersOf.{numbers_view};
ghost use Rattle.fx_calm.specs.BoundOf.{bound_of, bounds_in, IsShort, HasPlace};

use crate::bound::{Bound, input_of, literal_of, product_of, state_of, sum_of};
use crate::numbers::Numbers;
use fx_expr::Function;
use fx_flat::Node;
use fx_num::Memory;
use fx_weight::input_at;
use std::alloc::Global;

/// The bound of node `a`.
pub fn bound_at(bs: &[Bound], a: u32) -> Bound
    requires within { a < length bs.now }
    requires short { All IsShort (bounds_in bs.now) }
    ensures value { bound_of result ≡ at no_bound (bounds_in bs.now) a }
    ensures short { IsShort (bound_of result) }
{
    bs[a as usize]
}

/// The bound of input `k`.
fn bound_of_input(function: &Function, k: u32, f: u32) -> Bound
    requires within { k < length function.now.inputs }
    requires point { f ≤ 58 }
    requires short { IsShort (input_bound f (at no_input function.now.inputs k)) }
    ensures { bound_of result ≡ input_bound f (at no_input function.now.inputs k) }
{
    function.keeps();
    input_of(input_at(function, k), f)
}

/// The bound of a node after those of the bounds `bs`.
fn node_bound(node: Node, function: &Function, c: Numbers, bs: &[Bound]) -> Bound
    requires place { HasPlace (numbers_view c) }
    requires ordered { IsInPlace (length function.now.inputs) (length function.now.states) (length bs.now)
        (node_of node) }
    requires short { All IsShort (bounds_in bs.now) }
    requires own { IsShort (node_bound (numbers_view c) function.now.inputs (bounds_in bs.now) (node_of node)) }
    ensures { bound_of result ≡ node_bound (numbers_view c) function.now.inputs (bounds_in bs.now) (node_of node) }
{
    match node {
        Node::Input { k } => bound_of_input(function, k, c.f),
        Node::State { .. } => state_of(c),
        Node::Const { c: literal } => literal_of(literal, c.f),
        Node::Neg { a } => bound_at(bs, a),
        Node::Add { a, b } => sum_of(bound_at(bs, a), bound_at(bs, b)),
        Node::Sub { a, b } => sum_of(bound_at(bs, a), bound_at(bs, b)),
        Node::Mul { a, b } => product_of(bound_at(bs, a), bound_at(bs, b), c.f),
        Node::Div { .. } => Bound { r: 0, e: 0 },
        Node::Copy { a } => bound_at(bs, a),
    }
}

/// The bounds of all nodes of a function.
pub fn bounds(
    alloc: Global,
    nodes: &[Node],
    function: &Function,
    c: Numbers,
) -> Result<Vec<Bound>, Memory>
    requires nodes { nodes_in nodes.now ≡ nodes_of function.now }
    requires place { HasPlace (numbers_view c) }
    requires short { All IsShort (bounds_of (numbers_view c) function.now) }
    ensures { IfOk result (λ bs. bounds_in bs.items ≡ bounds_of (numbers_view c) function.now) }
{
    function.keeps();
    let mut bs = Vec::new(alloc);
    for i in 0..nodes.len() {
        bs.push(node_bound(nodes[i], function, c, &bs))?;
    }
    Ok(bs)
}
