//! A function, valid by its type.
ghost use Rattle.std.specs.Prelude.{◌≡◌, ◌+◌, ◌<◌, length, map, None, Some, IfOk, IsSome, MatchOption};
ghost use Rattle.fx_expr.specs.TreeOf.{tree};
ghost use Rattle.fx_expr.specs.Parts.{input_of, state_of, temp_of};
ghost use Rattle.fx_model.specs.Nodes.{nodes_of};
ghost use Rattle.fx_model.specs.Tree.{Tree};
ghost use Rattle.fx_model.specs.Function as model;
ghost use Rattle.fx_model.specs.Paths as paths;
ghost use Rattle.fx_model.specs.Paths.{found, tree_at, with_tree};
ghost use Rattle.fx_expr.specs.LawfulFunction.{IsLawfulFunction};
ghost use Rattle.fx_expr.specs.FunctionOf.{made_function};
ghost use Rattle.fx_expr.specs.SizeOf.{size_of};

use crate::count::{count_results, count_temps};
use crate::expr::Expr;
use crate::items::Items;
use crate::parts::{Demand, Input, State, Temp};
use crate::trees::{exchange_in, tree_in};
use fx_name::Name;
use fx_num::Memory;
use std::alloc::Global;
use std::marker::Model;

/// A function: its results are the outputs and then the next states, in declared order; each output has its demand.
#[derive(Debug, Drop)]
pub struct Function {
    pub name: Name,
    pub inputs: Items<Input>,
    pub states: Items<State>,
    pub temps: Items<Temp>,
    pub results: Items<Expr>,
    pub demands: Items<Demand>,
    // How many nodes it has.
    nodes: u32,
}

impl Model for Function {
    ghost use Rattle.fx_model.specs.Function as model;
    ghost use Rattle.fx_expr.specs.Coding.{function_code};
    ghost use Rattle.fx_expr.specs.FunctionOf.{function_of, IsFunction};

    ghost Value = { model.Function };

    ghost coded = { function_code };

    ghost view = { function_of };

    ghost invariant = { λ f. IsFunction f };
}

fn copy_inputs(alloc: Global, inputs: &[Input]) -> Result<Vec<Input>, Memory>
    ensures { IfOk result (λ v. map input_of v.items ≡ map input_of inputs.now) }
{
    let mut copies = Vec::new(alloc);
    for input in inputs {
        copies.push(input.copy(alloc)?)?;
    }
    Ok(copies)
}

fn copy_states(alloc: Global, states: &[State]) -> Result<Vec<State>, Memory>
    ensures { IfOk result (λ v. map state_of v.items ≡ map state_of states.now) }
{
    let mut copies = Vec::new(alloc);
    for state in states {
        copies.push(state.copy(alloc)?)?;
    }
    Ok(copies)
}

fn copy_temps(alloc: Global, temps: &[Temp]) -> Result<Vec<Temp>, Memory>
    ensures { IfOk result (λ v. map temp_of v.items ≡ map temp_of temps.now) }
{
    let mut copies = Vec::new(alloc);
    for temp in temps {
        copies.push(temp.copy(alloc)?)?;
    }
    Ok(copies)
}

fn copy_results(alloc: Global, results: &[Expr]) -> Result<Vec<Expr>, Memory>
    ensures { IfOk result (λ v. map tree v.items ≡ map tree results.now) }
{
    let mut copies = Vec::new(alloc);
    for expr in results {
        copies.push(expr.copy(alloc)?)?;
    }
    Ok(copies)
}

fn copy_demands(alloc: Global, demands: &[Demand]) -> Result<Vec<Demand>, Memory>
    ensures { IfOk result (λ v. v.items ≡ demands.now) }
{
    let mut copies = Vec::new(alloc);
    copies.extend_from_slice(demands)?;
    Ok(copies)
}

impl Function {
    /// The function of these parts, which together are lawful. What a source spells is, so the parser needs no such
    /// test.
    pub fn new(
        name: Name,
        inputs: Items<Input>,
        states: Items<State>,
        temps: Items<Temp>,
        results: Items<Expr>,
        demands: Items<Demand>,
    ) -> Function
        requires { IsLawfulFunction (made_function name inputs states temps results demands) }
        ensures { result ≡ made_function name inputs states temps results demands }
    {
        let variables = (inputs.len() + states.len()) as u32;
        let nodes = variables
            .saturating_add(count_temps(temps.as_slice()))
            .saturating_add(count_results(results.as_slice()));
        Function {
            name,
            inputs,
            states,
            temps,
            results,
            demands,
            nodes,
        }
    }

    /// How many nodes it has.
    pub fn nodes(&self) -> u32
        ensures { result ≡ length (nodes_of self.now) }
    {
        self.nodes
    }

    /// The tree at a place: the temps' and then the results'.
    pub fn tree(&self, place: u32) -> Option<&Expr>
        ensures { MatchOption result (tree_at self.now place ≡ None) (λ r. tree_at self.now place ≡ Some (tree r.now)) }
    {
        tree_in(self.temps.as_slice(), self.results.as_slice(), place)
    }

    /// Puts a tree in place of the subtree at a place and a path, and gives the subtree.
    ///
    /// Whoever judged the exchange knows how many nodes go and come, so neither tree is walked over again.
    pub fn replace(&mut self, place: u32, path: &[u8], new: Expr, less: u32, more: u32) -> Expr
        requires there { IsSome (found self.old place path.now) }
        requires lawful { IsLawfulFunction (with_tree self.old place path.now (tree new)) }
        requires less { (old : Tree) → found self.old place path.now ≡ Some old → less ≡ (size_of old).nodes }
        requires more { more ≡ (size_of (tree new)).nodes }
        ensures function { self.new ≡ with_tree self.old place path.now (tree new) }
        ensures old { found self.old place path.now ≡ Some (tree result) }
    {
        let old = exchange_in(&mut self.temps, &mut self.results, place, path, new);
        self.nodes = self.nodes - less + more;
        old
    }

    /// An equal function.
    pub fn copy(&self, alloc: Global) -> Result<Function, Memory>
        ensures { IfOk result (λ f. f ≡ self.now) }
    {
        Ok(Function {
            name: self.name.copy(alloc)?,
            inputs: Items::from_vec(copy_inputs(alloc, self.inputs.as_slice())?),
            states: Items::from_vec(copy_states(alloc, self.states.as_slice())?),
            temps: Items::from_vec(copy_temps(alloc, self.temps.as_slice())?),
            results: Items::from_vec(copy_results(alloc, self.results.as_slice())?),
            demands: Items::from_vec(copy_demands(alloc, self.demands.as_slice())?),
            nodes: self.nodes,
        })
    }

    /// What each function keeps.
    pub fn keeps(&self)
        ensures { IsLawfulFunction self.now }
    {
        let _ = &self.name;
    }
}
