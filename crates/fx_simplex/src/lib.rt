//! Templates taken apart by others: so many times each, and what they leave by the unit templates.
//!
//! # Contract
//!
//! `exchange` takes a template apart by others, by the simplex step in floating point, with an inverse made anew at
//! each turn, within a budget, and `take_apart` what a node takes of the states. It is given the templates, and looks
//! no step ahead; `fx_template_candidates` asks it for ends and gaps of chains, `fx_state_search` for the shares of
//! nodes. Nothing is promised of the shares: whoever takes them tests the bound that they show.
//!
//! # Inside
//!
//! A template is a sum of other templates in many ways, and what bounds it is the cheapest of them. The simplex step
//! finds a cheap one: templates of a basis are exchanged one at a time, from the unit templates on, until no template
//! makes the sum cheaper, or the budget of the synthesis is spent: a dense matrix of many states would take minutes.
//!
//! Stopping at any time is lawful, since what the shares leave goes to the unit templates.
#![tactic(auto)]

mod apart;
mod basis;
mod budget;
mod inverse;
mod scaled_templates;

pub use apart::{Apart, Combination, pool_of, take_apart};
pub use basis::{Exchanged, costs_at_most, exchange};
pub use budget::Budget;
pub use inverse::{entry_of, take_row};
pub use scaled_templates::ScaledTemplates;
