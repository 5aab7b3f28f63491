//! Sums, multiples and products of affine forms.

ghost use Rattle.std.specs.Prelude.{◌≡◌, ◌∷◌, [], ◌++◌, ◌+◌, ℕ, IsTrue, length, MatchResult};
ghost use Rattle.fx_rational.specs.Dyadic as model;
ghost use Rattle.fx_inequalities.specs.Formula.{Formula, Num, Product, Sum, formed, formula_fits};
ghost use Rattle.fx_formulas.specs.Judging.{Forms, FormsSpan};
ghost use Rattle.fx_template.specs.AffineView.{linear_form};
ghost use Rattle.fx_template.specs.AffineAnswers.{IsAffineFault, IsFormed};
ghost use Rattle.fx_template.specs.Combining.{FormulaForm, HasNearForm, HasNearProducts, coefs_fit, formed_coefs, product_form, scaled_form, sum_form};

use crate::affine::{Affine, AffineFault};
use crate::coefs::Coefs;
use crate::product::{product, product_rest, scaled};
use fx_formulas::{interval, number, plus, sum};
use fx_num::{Dyadic, Interval};
use std::alloc::Global;

/// Appends a coefficient.
fn append(coefs: &mut Coefs, coef: Option<Dyadic>) -> Result<(), AffineFault>
    ensures { (f : Formula) → Forms coef f →
        MatchResult result (λ _. IsTrue (formula_fits f) ×
        (coefs.new ≡ coefs.old ++ formed f ∷ [])) (λ e. IsAffineFault e (length coefs.old + 1) (formula_fits f)) }
{
    let Some(coef) = coef else {
        return Err(AffineFault::Beyond);
    };
    coefs.push(coef)?;
    Ok(())
}

/// The form of these coefficients and this rest.
fn with_rest(coefs: Coefs, rest: Option<Interval>) -> Result<Affine, AffineFault>
    ensures { (n : ℕ) (f : FormulaForm) → IsTrue (coefs_fit n f.coef) → coefs ≡ formed_coefs n f.coef →
        FormsSpan rest f.rest → IsFormed result n f }
{
    match rest {
        Some(rest) => Ok(Affine { coefs, rest }),
        None => Err(AffineFault::Beyond),
    }
}

/// `a + b`.
pub fn aff_add(alloc: Global, a: &Affine, b: &Affine) -> Result<Affine, AffineFault>
    requires { length a.now.coefs ≡ length b.now.coefs }
    ensures { IsFormed result (length a.now.coefs) (sum_form (linear_form a.now) (linear_form b.now)) }
{
    let mut coefs = Coefs::new(alloc);
    for j in 0..a.coefs.len() {
        append(
            &mut coefs,
            sum(number(a.coefs.at(j)), number(b.coefs.at(j))),
        )?;
    }
    with_rest(coefs, plus(interval(a.rest), interval(b.rest)))
}

/// `m * a`.
pub fn aff_scale(alloc: Global, a: &Affine, m: Dyadic) -> Result<Affine, AffineFault>
    requires { HasNearForm (length a.now.coefs) (scaled_form (linear_form a.now) m) }
    ensures { IsFormed result (length a.now.coefs) (scaled_form (linear_form a.now) m) }
{
    let mut coefs = Coefs::new(alloc);
    for j in 0..a.coefs.len() {
        append(&mut coefs, product(number(m), number(a.coefs.at(j))))?;
    }
    with_rest(coefs, scaled(m, a.rest))
}

/// A coefficient of a product about these centres, by those of its operands.
fn product_coef(ma: Dyadic, mb: Dyadic, c: Dyadic, d: Dyadic) -> Option<Dyadic>
    requires { HasNearProducts (Sum (Product (Num mb) (Num c)) (Product (Num ma) (Num d))) }
    ensures { Forms result (Sum (Product (Num mb) (Num c)) (Product (Num ma) (Num d))) }
{
    sum(
        product(number(mb), number(c)),
        product(number(ma), number(d)),
    )
}

/// `a * b`, of operands in these ranges, about these centres.
pub fn aff_mul(
    alloc: Global,
    a: &Affine,
    b: &Affine,
    ranges: (Interval, Interval),
    centres: (Dyadic, Dyadic),
) -> Result<Affine, AffineFault>
    requires same { length a.now.coefs ≡ length b.now.coefs }
    requires near { HasNearForm (length a.now.coefs)
        (product_form (linear_form a.now) (linear_form b.now) ranges centres) }
    ensures { IsFormed result (length a.now.coefs)
        (product_form (linear_form a.now) (linear_form b.now) ranges centres) }
{
    let (ma, mb) = centres;
    let mut coefs = Coefs::new(alloc);
    for j in 0..a.coefs.len() {
        append(
            &mut coefs,
            product_coef(ma, mb, a.coefs.at(j), b.coefs.at(j)),
        )?;
    }
    with_rest(coefs, product_rest((a.rest, b.rest), ranges, (ma, mb)))
}
