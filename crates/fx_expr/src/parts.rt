//! What a function declares: its inputs, its states, its temps, and what is demanded of its outputs.
ghost use Rattle.std.specs.Prelude.{◌≡◌, IfOk};
ghost use Rattle.fx_model.specs.Function.{free};
ghost use Rattle.fx_expr.specs.Parts.{input_of, state_of, temp_of, demand_of};

use crate::expr::Expr;
use fx_fraction::Decimal;
use fx_name::Name;
use fx_num::Memory;
use std::alloc::Global;

/// An input: its name, the ends of its range, and by how much a given value may differ from the true one.
#[derive(Debug, Drop)]
pub struct Input {
    pub name: Name,
    pub lo: Decimal,
    pub hi: Decimal,
    pub err: Decimal,
}

/// A state: its name, and its value at the first row.
#[derive(Debug, Drop)]
pub struct State {
    pub name: Name,
    pub start: Decimal,
}

/// A temp: its name and its expression, which may use earlier temps.
#[derive(Debug, Drop)]
pub struct Temp {
    pub name: Name,
    pub expr: Expr,
}

/// What is demanded of an output, each where there is one.
#[derive(Clone, Copy, Debug, PartialEq, Eq)]
pub struct Demand {
    /// By how much the printed value may differ from the exact one.
    pub err: Option<Decimal>,
    /// The least that the printed value may be.
    pub lo: Option<Decimal>,
    /// The greatest that it may be.
    pub hi: Option<Decimal>,
}

impl Demand {
    /// Nothing is demanded.
    pub fn free() -> Demand
        ensures { demand_of result ≡ free }
    {
        Demand {
            err: None,
            lo: None,
            hi: None,
        }
    }
}

impl Input {
    /// An equal input.
    pub fn copy(&self, alloc: Global) -> Result<Input, Memory>
        ensures { IfOk result (λ i. input_of i ≡ input_of self.now) }
    {
        let name = self.name.copy(alloc)?;
        Ok(Input {
            name,
            lo: self.lo,
            hi: self.hi,
            err: self.err,
        })
    }
}

impl State {
    /// An equal state.
    pub fn copy(&self, alloc: Global) -> Result<State, Memory>
        ensures { IfOk result (λ s. state_of s ≡ state_of self.now) }
    {
        let name = self.name.copy(alloc)?;
        Ok(State {
            name,
            start: self.start,
        })
    }
}

impl Temp {
    /// An equal temp.
    pub fn copy(&self, alloc: Global) -> Result<Temp, Memory>
        ensures { IfOk result (λ t. temp_of t ≡ temp_of self.now) }
    {
        let name = self.name.copy(alloc)?;
        let expr = self.expr.copy(alloc)?;
        Ok(Temp { name, expr })
    }
}
