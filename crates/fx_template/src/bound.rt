//! Where what a form stands for lies.

ghost use Rattle.std.specs.Prelude.{◌≡◌, length};
ghost use Rattle.fx_formulas.specs.Judging.{FormsSpan};
ghost use Rattle.fx_template.specs.AffineView.{linear_form};
ghost use Rattle.fx_template.specs.Combining.{HasNearSpan, bound_form};

use crate::affine::Affine;
use crate::product::scaled;
use fx_formulas::{interval, plus};
use fx_num::Interval;

/// The rest and the products of coefficients and ranges, summed.
pub fn aff_bound(a: &Affine, ranges: &[Interval]) -> Option<Interval>
    requires same { length a.now.coefs ≡ length ranges.now }
    requires near { HasNearSpan (bound_form (linear_form a.now) (length ranges.now) ranges.now) }
    ensures { FormsSpan result (bound_form (linear_form a.now) (length ranges.now) ranges.now) }
{
    let mut total = interval(a.rest);
    for j in 0..ranges.len() {
        let range = ranges[j];
        total = plus(total, scaled(a.coefs.at(j), range));
    }
    total
}
