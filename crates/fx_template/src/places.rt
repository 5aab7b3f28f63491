//! How far a form is from exponents that its products couldn't have.

ghost use Rattle.fx_template.specs.AffineView.{linear_form};
ghost use Rattle.fx_template.specs.ShortForms.{IsShortLinear};

use crate::affine::Affine;

/// How many binary places its numbers have at most. Products of forms of at most 2^19 places are always near enough.
pub fn aff_places(a: &Affine) -> u32
    ensures { IsShortLinear result (linear_form a.now) }
{
    let rest = a.rest;
    let mut most = rest.lo.e.max(rest.hi.e);
    for j in 0..a.coefs.len() {
        let coef = a.coefs.at(j);
        most = most.max(coef.e);
    }
    most
}
