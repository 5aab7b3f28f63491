//! What an attempt is made of.

use fx_expr::Function;
use fx_flat::Nodes;
use fx_search_numbers::Grids;
use fx_step::Step;
use fx_wanted::Wanted;

/// What an attempt goes on.
#[derive(Clone, Copy)]
pub struct Task<'a> {
    /// The function that was asked for.
    pub source: &'a Function,
    /// The steps that rewrite it.
    pub steps: &'a [Step],
    /// What they make of it, and the nodes of that.
    pub function: &'a Function,
    pub nodes: &'a Nodes,
    pub wanted: Wanted,
    pub grids: Grids,
}
