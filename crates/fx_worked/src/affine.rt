//! Sums, multiples and products of affine forms, over two variables.

ghost use Rattle.std.specs.Prelude.{◌^◌};
ghost use Rattle.fx_inequalities.specs.Formula.{Num, span};
ghost use Rattle.fx_formulas.specs.Places.{IsShort, IsShortSpan};

use fx_num::{Dyadic, Interval};
use fx_template::{Affine, AffineFault, Coefs, aff_add, aff_mul, aff_places, aff_scale};
use std::alloc::Global;
use std::process::Abort;
use std::test::Fail;

/// How many binary places a number has here at most.
const PLACES: u32 = 8;

/// Two numbers `m / 2^e`: coefficients, or the ends of an interval.
type Pair = [(i128, u32); 2];

/// `m / 2^e`
fn dyadic(m: i128, e: u32) -> Dyadic
    ensures { IsShort (2 ^ 19) (Num result) }
{
    Dyadic::new(m, e.min(PLACES))
}

fn interval(ends: Pair) -> Interval
    ensures { IsShortSpan (2 ^ 19) (span result) }
{
    let [lo, hi] = ends;
    Interval {
        lo: dyadic(lo.0, lo.1),
        hi: dyadic(hi.0, hi.1),
    }
}

/// The form of these coefficients and this rest.
fn form(alloc: Global, coefs: Pair, rest: Pair) -> Result<Affine, Fail> {
    let mut list = Coefs::new(alloc);
    for (m, e) in coefs {
        list.push(dyadic(m, e))?;
    }
    Ok(Affine {
        coefs: list,
        rest: interval(rest),
    })
}

/// Whether a form has these coefficients and this rest.
fn is_form(a: &Affine, coefs: Pair, rest: Pair) -> bool {
    let [first, second] = coefs;
    a.coefs.len() == 2
        && a.coefs.at(0) == dyadic(first.0, first.1)
        && a.coefs.at(1) == dyadic(second.0, second.1)
        && a.rest == interval(rest)
}

/// `3/2 x - y + [-1/8, 1/4]`
fn first(alloc: Global) -> Result<Affine, Fail> {
    form(alloc, [(3, 1), (-1, 0)], [(-1, 3), (1, 2)])
}

/// `1/4 x + [0, 1/8]`
fn second(alloc: Global) -> Result<Affine, Fail> {
    form(alloc, [(1, 2), (0, 0)], [(0, 0), (1, 3)])
}

/// `a + b` of as many coefficients.
fn sum(rt: &impl Abort, alloc: Global, a: &Affine, b: &Affine) -> Result<Affine, AffineFault> {
    assert!(rt; a.coefs.len() == b.coefs.len());
    aff_add(alloc, a, b)
}

/// `m * a` of few places, where `m` is a number and its places.
fn multiple(
    rt: &impl Abort,
    alloc: Global,
    a: &Affine,
    m: (i128, u32),
) -> Result<Affine, AffineFault> {
    assert!(rt; aff_places(a) <= PLACES);
    aff_scale(alloc, a, dyadic(m.0, m.1))
}

/// `a * b` of few places and as many coefficients, in these ranges and about these centres.
fn product(
    rt: &impl Abort,
    alloc: Global,
    a: &Affine,
    b: &Affine,
    ranges: (Pair, Pair),
    centres: Pair,
) -> Result<Affine, AffineFault> {
    assert!(rt; a.coefs.len() == b.coefs.len());
    assert!(rt; aff_places(a) <= PLACES);
    assert!(rt; aff_places(b) <= PLACES);
    let [of_a, of_b] = centres;
    aff_mul(
        alloc,
        a,
        b,
        (interval(ranges.0), interval(ranges.1)),
        (dyadic(of_a.0, of_a.1), dyadic(of_b.0, of_b.1)),
    )
}

#[test]
fn a_sum(rt: HostRuntime) -> Result<(), Fail> {
    let alloc = rt.alloc();
    let sum = sum(&rt, alloc, &first(alloc)?, &second(alloc)?)?;
    assert!(rt; is_form(&sum, [(7, 2), (-1, 0)], [(-1, 3), (3, 3)]));
    Ok(())
}

// The ends of the rest change places.
#[test]
fn a_multiple(rt: HostRuntime) -> Result<(), Fail> {
    let alloc = rt.alloc();
    let multiple = multiple(&rt, alloc, &first(alloc)?, (-3, 1))?;
    assert!(rt; is_form(&multiple, [(-9, 2), (3, 1)], [(-3, 3), (3, 4)]));
    Ok(())
}

// About 1/2 and 3/4, in [-5/2, 5/2] and [1/4, 3/2].
#[test]
fn a_product(rt: HostRuntime) -> Result<(), Fail> {
    let alloc = rt.alloc();
    let ranges = ([(-5, 1), (5, 1)], [(1, 2), (3, 1)]);
    let centres = [(1, 1), (3, 2)];
    let product = product(&rt, alloc, &first(alloc)?, &second(alloc)?, ranges, centres)?;
    assert!(rt; is_form(&product, [(10, 3), (-3, 2)], [(-87, 5), (22, 4)]));
    Ok(())
}

// 2^126 twice is one too much.
#[test]
fn a_sum_beyond(rt: HostRuntime) -> Result<(), Fail> {
    let alloc = rt.alloc();
    let great = form(alloc, [(1 << 126, 0), (0, 0)], [(0, 0), (0, 0)])?;
    assert!(rt; matches!(sum(&rt, alloc, &great, &great), Err(AffineFault::Beyond)));
    Ok(())
}
