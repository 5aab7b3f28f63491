//! The trees of a function by place: the temps' and then the results'.
ghost use Rattle.std.specs.Prelude.{◌≡◌, ◌<◌, length, map, None, Some, IsSome, MatchOption, slice_get};
ghost use Rattle.std.specs.Option.{option_and_then};
ghost use Rattle.fx_model.specs.Tree.{Tree};
ghost use Rattle.fx_model.specs.Function as model;
ghost use Rattle.fx_model.specs.Paths as paths;
ghost use Rattle.fx_model.specs.Paths.{put, subtree, temps_changed, results_changed, results_after};
ghost use Rattle.fx_expr.specs.TreeOf.{tree};
ghost use Rattle.fx_expr.specs.Parts.{temp_of};

use crate::expr::Expr;
use crate::items::Items;
use crate::parts::Temp;
use crate::place::exchange;

/// The tree at this place among the temps' and then the results'.
pub fn tree_in<'a>(temps: &'a [Temp], results: &'a [Expr], place: u32) -> Option<&'a Expr>
    ensures { MatchOption result (paths.tree_in (map temp_of temps.now) (map tree results.now) place ≡ None)
        (λ r. paths.tree_in (map temp_of temps.now) (map tree results.now) place ≡ Some (tree r.now)) }
{
    let place = place as usize;
    let count = temps.len();
    if place < count {
        Some(&temps[place].expr)
    } else if place - count < results.len() {
        Some(&results[place - count])
    } else {
        None
    }
}

/// Exchanges a subtree of the tree of a temp.
fn exchange_in_temps(temps: &mut Items<Temp>, place: usize, path: &[u8], new: Expr) -> Expr
    requires { place < length temps.old }
    ensures changed { map temp_of temps.new ≡ temps_changed (map temp_of temps.old) place (put path.now (tree new)) }
    ensures old { (e : model.Temp) → slice_get (map temp_of temps.old) place ≡ Some e →
        IsSome (subtree path.now e.tree) → subtree path.now e.tree ≡ Some (tree result) }
{
    let temp = &mut temps.list[place];
    exchange(&mut temp.expr, path, new)
}

/// Exchanges a subtree of a result.
fn exchange_in_results(results: &mut Items<Expr>, place: usize, path: &[u8], new: Expr) -> Expr
    requires { place < length results.old }
    ensures changed { map tree results.new ≡ results_changed (map tree results.old) place (put path.now (tree new)) }
    ensures old { (e : Tree) → slice_get (map tree results.old) place ≡ Some e → IsSome (subtree path.now e) →
        subtree path.now e ≡ Some (tree result) }
{
    let result = &mut results.list[place];
    exchange(result, path, new)
}

/// Exchanges a subtree of the tree at this place.
pub fn exchange_in(
    temps: &mut Items<Temp>,
    results: &mut Items<Expr>,
    place: u32,
    path: &[u8],
    new: Expr,
) -> Expr
    requires { IsSome (option_and_then (subtree path.now)
        (paths.tree_in (map temp_of temps.old) (map tree results.old) place)) }
    ensures temps { map temp_of temps.new ≡ temps_changed (map temp_of temps.old) place (put path.now (tree new)) }
    ensures results { map tree results.new
        ≡ results_after (map temp_of temps.old) (map tree results.old) place (put path.now (tree new)) }
    ensures old { option_and_then (subtree path.now)
        (paths.tree_in (map temp_of temps.old) (map tree results.old) place) ≡ Some (tree result) }
{
    let place = place as usize;
    let count = temps.len();
    if place < count {
        exchange_in_temps(temps, place, path, new)
    } else {
        exchange_in_results(results, place - count, path, new)
    }
}
