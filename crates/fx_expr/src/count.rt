//! Nodes of many trees.
ghost use Rattle.std.specs.Prelude.{◌≡◌, map};
ghost use Rattle.fx_model.specs.Counts.{temp_nodes, result_nodes};
ghost use Rattle.fx_expr.specs.TreeOf.{tree};
ghost use Rattle.fx_expr.specs.Parts.{temp_of};
ghost use Rattle.fx_expr.specs.SizeOf.{size_counted};

use crate::expr::Expr;
use crate::parts::Temp;
use crate::size::Size;

/// The nodes of all temps, of which there are at most 1,000.
pub fn count_temps(temps: &[Temp]) -> u32
    ensures { result ≡ size_counted (temp_nodes (map temp_of temps.now)) }
{
    match temps {
        [] => 0,
        [first, rest @ ..] => {
            let nodes = Size::of(&first.expr).nodes;
            nodes.saturating_add(count_temps(rest))
        }
    }
}

/// The nodes of all results, each with its copy.
pub fn count_results(results: &[Expr]) -> u32
    ensures { result ≡ size_counted (result_nodes (map tree results.now)) }
{
    match results {
        [] => 0,
        [first, rest @ ..] => {
            let nodes = Size::of(first).nodes.saturating_add(1);
            nodes.saturating_add(count_results(rest))
        }
    }
}
