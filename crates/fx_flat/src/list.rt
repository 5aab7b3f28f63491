//! From trees to the list.
//!
//! Each call appends the nodes of its part and gives the number of the part's node, so that the list is built in one
//! pass. No more than 4,000 nodes come, which the function keeps as its limit.
ghost use Rattle.std.specs.Prelude.{◌≡◌, ◌+◌, ◌<◌, ◌≤◌, ◌∷◌, ◌++◌, length, IfOk, OnOk, []};
ghost use Rattle.fx_model.specs.Function.{outputs};
ghost use Rattle.fx_model.specs.Nodes.{nodes_of, nodes_after, flat, inputs_from, states_from, copies_of};
ghost use Rattle.fx_model.specs.Valid.{RefersBelow};
ghost use Rattle.fx_expr.specs.TreeOf.{tree};
ghost use Rattle.fx_flat.specs.NodeOf.{nodes_in};

use crate::node::{Node, Nodes};
use fx_expr::{Expr, Function, Items};
use fx_num::Memory;
use std::alloc::Global;

/// Appends a node and gives its number.
fn put(list: &mut Vec<Node>, node: Node) -> Result<u32, Memory>
    requires { length list.old.items < 4000 }
    ensures list { OnOk result (list.new.items ≡ list.old.items ++ node ∷ []) }
    ensures root { IfOk result (λ root. root ≡ length list.old.items) }
{
    let root = list.len() as u32;
    list.push(node)?;
    Ok(root)
}

/// Appends a tree's nodes and gives the number of its own.
fn put_tree(list: &mut Vec<Node>, inputs: u32, temps: &[u32], e: &Expr) -> Result<u32, Memory>
    requires few { length list.old.items + length (flat inputs temps.now (length list.old.items) (tree e.now)).list
        ≤ 4000 }
    requires refers { RefersBelow inputs 32 (length temps.now) (tree e.now) }
    requires inputs { inputs ≤ 64 }
    ensures list { OnOk result
        (nodes_in list.new.items ≡ nodes_in list.old.items
        ++ (flat inputs temps.now (length list.old.items) (tree e.now)).list) }
    ensures root { IfOk result (λ root. root ≡ (flat inputs temps.now (length list.old.items) (tree e.now)).root) }
{
    match e {
        Expr::Lit(c) => put(list, Node::Const { c: *c }),
        Expr::Input(k) => Ok(*k),
        Expr::State(k) => Ok(inputs + *k),
        Expr::Temp(k) => Ok(temps[*k as usize]),
        Expr::Neg(a) => {
            let a = put_tree(list, inputs, temps, a)?;
            put(list, Node::Neg { a })
        }
        Expr::Add(a, b) => {
            let a = put_tree(list, inputs, temps, a)?;
            let b = put_tree(list, inputs, temps, b)?;
            put(list, Node::Add { a, b })
        }
        Expr::Sub(a, b) => {
            let a = put_tree(list, inputs, temps, a)?;
            let b = put_tree(list, inputs, temps, b)?;
            put(list, Node::Sub { a, b })
        }
        Expr::Mul(a, b) => {
            let a = put_tree(list, inputs, temps, a)?;
            let b = put_tree(list, inputs, temps, b)?;
            put(list, Node::Mul { a, b })
        }
        Expr::Div(a, b) => {
            let a = put_tree(list, inputs, temps, a)?;
            let b = put_tree(list, inputs, temps, b)?;
            put(list, Node::Div { a, b })
        }
    }
}

/// Appends a node for each input and each state.
fn put_variables(list: &mut Vec<Node>, inputs: u32, states: u32) -> Result<(), Memory>
    ensures { OnOk result (nodes_in list.new.items ≡ nodes_in list.old.items ++ inputs_from 0 inputs
        ++ states_from 0 states) }
{
    put_inputs(list, inputs)?;
    put_states(list, states)
}

fn put_inputs(list: &mut Vec<Node>, inputs: u32) -> Result<(), Memory>
    ensures { OnOk result (nodes_in list.new.items ≡ nodes_in list.old.items ++ inputs_from 0 inputs) }
{
    for k in 0..inputs {
        list.push(Node::Input { k })?;
    }
    Ok(())
}

fn put_states(list: &mut Vec<Node>, states: u32) -> Result<(), Memory>
    ensures { OnOk result (nodes_in list.new.items ≡ nodes_in list.old.items ++ states_from 0 states) }
{
    for k in 0..states {
        list.push(Node::State { k })?;
    }
    Ok(())
}

fn put_copies(list: &mut Vec<Node>, roots: &[u32]) -> Result<(), Memory>
    ensures { OnOk result (nodes_in list.new.items ≡ nodes_in list.old.items ++ copies_of roots.now) }
{
    for a in roots {
        list.push(Node::Copy { a: *a })?;
    }
    Ok(())
}

/// Appends the nodes of each temp's tree, and gives the temps' nodes.
fn put_temps(
    alloc: Global,
    list: &mut Vec<Node>,
    inputs: u32,
    function: &Function,
) -> Result<Vec<u32>, Memory>
    requires inputs { inputs ≡ length function.now.inputs }
    requires list { nodes_in list.old.items ≡ inputs_from 0 (length function.now.inputs)
        ++ states_from 0 (length function.now.states) }
    ensures rest { IfOk result (λ temps. (length temps.items ≡ length function.now.temps) ×
        (nodes_after (length function.now.inputs) [] function.now.results temps.items [] (nodes_in list.new.items)
        ≡ nodes_of function.now)) }
{
    let mut temps = Vec::new(alloc);
    for temp in function.temps.as_slice() {
        let root = put_tree(list, inputs, &temps, &temp.expr)?;
        temps.push(root)?;
    }
    Ok(temps)
}

/// Appends the nodes of each result's tree, and gives the results' nodes.
fn put_results(
    alloc: Global,
    list: &mut Vec<Node>,
    inputs: u32,
    temps: &[u32],
    function: &Function,
) -> Result<Vec<u32>, Memory>
    requires inputs { inputs ≡ length function.now.inputs }
    requires temps { length temps.now ≡ length function.now.temps }
    requires list { nodes_after (length function.now.inputs) [] function.now.results temps.now []
        (nodes_in list.old.items) ≡ nodes_of function.now }
    ensures rest { IfOk result (λ roots. nodes_in list.new.items ++ copies_of roots.items ≡ nodes_of function.now) }
{
    let mut roots = Vec::new(alloc);
    for result in function.results.as_slice() {
        let root = put_tree(list, inputs, temps, result)?;
        roots.push(root)?;
    }
    Ok(roots)
}

/// The nodes of a function.
pub fn flatten(alloc: Global, function: &Function) -> Result<Nodes, Memory>
    ensures list { IfOk result (λ nodes. nodes_in nodes.list ≡ nodes_of function.now) }
    ensures inputs { IfOk result (λ nodes. nodes.inputs ≡ length function.now.inputs) }
    ensures states { IfOk result (λ nodes. nodes.states ≡ length function.now.states) }
    ensures outputs { IfOk result (λ nodes. nodes.outputs ≡ outputs function.now) }
{
    function.keeps();
    let inputs = function.inputs.len() as u32;
    let states = function.states.len() as u32;
    let mut list = Vec::new(alloc);
    put_variables(&mut list, inputs, states)?;
    let temps = put_temps(alloc, &mut list, inputs, function)?;
    let roots = put_results(alloc, &mut list, inputs, &temps, function)?;
    put_copies(&mut list, &roots)?;
    Ok(Nodes {
        list: Items::from_vec(list),
        inputs,
        states,
        outputs: function.demands.len() as u32,
    })
}
