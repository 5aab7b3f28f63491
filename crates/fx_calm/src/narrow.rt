//! That a function's numbers are narrow: each keeps its limits by its type, and a call by value brings that out.

ghost use Rattle.std.specs.Prelude.{◌≡◌, ◌<◌, All, IfSome, option_map};
ghost use Rattle.fx_rational.specs.Decimal.{decimal_value};
ghost use Rattle.fx_model.specs.Nodes.{nodes_of};
ghost use Rattle.fx_expr.specs.Parts.{demand_of};
ghost use Rattle.fx_flat.specs.NodeOf.{node_of, nodes_in};
ghost use Rattle.fx_plan_laws.specs.Narrow.{IsNarrowNumber, IsNarrowState, IsNarrowNode, IsNarrowDemand};
ghost use Rattle.fx_plan_laws.specs.CalmLaw.{IsNarrowFunction};

use crate::limit::start_at;
use crate::magnitude::{magnitude_of, magnitude_of_decimal};
use fx_expr::{Demand, Function};
use fx_flat::Node;
use fx_fraction::Decimal;
use fx_lowering::{output_count, state_count};
use fx_weight::{demand_at, narrow_inputs};

/// The starts of all states.
fn narrow_states(function: &Function)
    ensures { All IsNarrowState function.now.states }
{
    for k in 0..state_count(function) {
        let _start = start_at(function, k);
    }
}

/// A demanded error.
fn narrow_error(err: Option<Decimal>)
    ensures { IfSome (option_map decimal_value err) IsNarrowNumber }
{
    match err {
        Some(e) => {
            let _size = magnitude_of_decimal(e);
        }
        None => {}
    }
}

/// What is demanded of an output.
fn narrow_demand(demand: Demand)
    ensures { IsNarrowDemand (demand_of demand) }
{
    narrow_error(demand.err);
}

/// What is demanded of all outputs.
fn narrow_demands(function: &Function)
    ensures { All IsNarrowDemand function.now.demands }
{
    for j in 0..output_count(function) {
        narrow_demand(demand_at(function, j));
    }
}

/// A literal.
fn narrow_node(node: Node)
    ensures { IsNarrowNode (node_of node) }
{
    match node {
        Node::Const { c } => {
            let _size = magnitude_of(c);
        }
        _ => {}
    }
}

/// The literals of all nodes.
fn narrow_nodes(nodes: &[Node])
    ensures { All IsNarrowNode (nodes_in nodes.now) }
{
    for i in 0..nodes.len() {
        narrow_node(nodes[i]);
    }
}

/// All numbers of a function.
pub fn narrow_function(function: &Function, nodes: &[Node])
    requires { nodes_in nodes.now ≡ nodes_of function.now }
    ensures { IsNarrowFunction function.now }
{
    function.keeps();
    narrow_inputs(function);
    narrow_states(function);
    narrow_demands(function);
    narrow_nodes(nodes);
}
