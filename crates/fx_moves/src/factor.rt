//! Factoring: `x * g + y * g` to `(x + y) * g`, where `g` stands anywhere in both products, and the products anywhere
//! in a chain of sums.

use crate::draft::{Draft, Site, joined};
use crate::drawing::draw_index;
use crate::moves::{
    HERE, LEFT, RIGHT, exchange_last, follow, is_minus, rotate_right, swap, turn_round, when,
};
use crate::rule::{
    EXCHANGE_FACTORS, FACTOR_OF_DIFFERENCE, FACTOR_OF_SUM, GROUP_FACTORS_LEFT, NEGATE_FACTOR,
    SUBTRACT,
};
use fx_expr::{Expr, at, operand, same};
use fx_num::Memory;
use rand_core::Rng;
use std::alloc::Global;

/// How many steps factor two terms that stand side by side, about.
const FACTOR_STEPS: usize = 8;

/// How many steps bring a term past another, about.
const SWAP_STEPS: usize = 3;

/// A factor that two products have: its paths in both.
#[derive(Drop)]
struct Common {
    left: Vec<u8>,
    right: Vec<u8>,
    is_literal: bool,
}

/// A term of a chain of sums: how far down the chain it stands, and whether it is the first of all.
#[derive(Clone, Copy)]
pub struct Term {
    pub depth: usize,
    pub is_first: bool,
}

/// Appends the paths of a product's factors.
fn put_factors(
    alloc: Global,
    e: &Expr,
    path: &mut Vec<u8>,
    out: &mut Vec<Vec<u8>>,
) -> Result<(), Memory> {
    match e {
        Expr::Mul(a, b) => {
            path.push(0)?;
            put_factors(alloc, a, path, out)?;
            let _ = path.pop();
            path.push(1)?;
            put_factors(alloc, b, path, out)?;
            let _ = path.pop();
            Ok(())
        }
        _ => {
            out.push(Vec::from_slice(alloc, path)?)?;
            Ok(())
        }
    }
}

/// The paths of a product's factors.
pub fn factors(alloc: Global, e: &Expr) -> Result<Vec<Vec<u8>>, Memory> {
    let mut path = Vec::new(alloc);
    let mut out = Vec::new(alloc);
    put_factors(alloc, e, &mut path, &mut out)?;
    Ok(out)
}

/// Appends what a factor has in common with those of another product.
fn put_common(
    alloc: Global,
    factor: &Expr,
    left: &[u8],
    y: &Expr,
    rights: &[Vec<u8>],
    out: &mut Vec<Common>,
) -> Result<(), Memory> {
    for right in rights {
        if let Some(other) = at(y, right) {
            if same(factor, other) {
                out.push(Common {
                    left: Vec::from_slice(alloc, left)?,
                    right: Vec::from_slice(alloc, right)?,
                    is_literal: matches!(factor, Expr::Lit(_)),
                })?;
            }
        }
    }
    Ok(())
}

/// The factors that two products have in common.
fn common_factors(alloc: Global, x: &Expr, y: &Expr) -> Result<Vec<Common>, Memory> {
    let mut out = Vec::new(alloc);
    if !matches!(x, Expr::Mul(_, _)) || !matches!(y, Expr::Mul(_, _)) {
        return Ok(out);
    }
    let lefts = factors(alloc, x)?;
    let rights = factors(alloc, y)?;
    for left in &lefts {
        if let Some(factor) = at(x, left) {
            put_common(alloc, factor, left, y, &rights, &mut out)?;
        }
    }
    Ok(out)
}

/// A tree without the negations round it.
pub fn unsigned(e: &Expr) -> &Expr {
    match e {
        Expr::Neg(a) => unsigned(a),
        _ => e,
    }
}

/// Whether two terms have a factor in common, whatever their signs.
fn have_common(alloc: Global, x: &Expr, y: &Expr) -> Result<bool, Memory> {
    let common = common_factors(alloc, unsigned(x), unsigned(y))?;
    Ok(!common.is_empty())
}

/// One of what is common, no literal where there is anything else.
fn drawn<R: Rng>(rng: &mut R, mut common: Vec<Common>) -> Option<Common> {
    if common.iter().any(|c| !c.is_literal) {
        common.retain(|c| !c.is_literal);
    }
    match draw_index(rng, common.len()) {
        Some(i) => Some(common.swap_remove(i)),
        None => None,
    }
}

/// Brings the factor at a path of a product to its right end.
pub fn pull(alloc: Global, draft: &mut Draft, product: &Site, path: &[u8]) -> Result<bool, Memory> {
    for i in (0..path.len()).rev() {
        let (above, rest) = path.split_at(i);
        if !pull_up_below(alloc, draft, product, above, rest)? {
            return Ok(false);
        }
    }
    Ok(true)
}

/// Brings the factor at a path of an operand of this number to the operand's right end.
pub fn pull_operand(
    alloc: Global,
    draft: &mut Draft,
    site: &Site,
    number: u8,
    path: &[u8],
) -> Result<bool, Memory> {
    let product = below(alloc, site, &[number])?;
    pull(alloc, draft, &product, path)
}

/// Brings a factor one operand up, in the product at this path below a site.
fn pull_up_below(
    alloc: Global,
    draft: &mut Draft,
    product: &Site,
    above: &[u8],
    rest: &[u8],
) -> Result<bool, Memory> {
    let site = below(alloc, product, above)?;
    pull_up(alloc, draft, &site, rest)
}

/// Brings a factor that stands at the right end of an operand to the right end of the product.
fn pull_up(alloc: Global, draft: &mut Draft, site: &Site, rest: &[u8]) -> Result<bool, Memory> {
    match rest {
        [0] => draft.apply(alloc, site, &[], EXCHANGE_FACTORS),
        [0, ..] => exchange_last(alloc, draft, site),
        [_] => Ok(true),
        _ => draft.apply(alloc, site, &[], GROUP_FACTORS_LEFT),
    }
}

/// Whether the operand of this number is the negation of a product.
fn is_negated_product(e: &Expr, number: u8) -> bool {
    match operand(e, number) {
        Some(Expr::Neg(a)) => matches!(**a, Expr::Mul(_, _)),
        _ => false,
    }
}

/// The signs of a sum or a difference.
#[derive(Clone, Copy)]
struct Signs {
    minus: bool,
    /// Whether its first operand is a negated product, and its second.
    left: bool,
    right: bool,
}

/// The signs of what stands at a site, if it is a sum or a difference.
fn signs_at(draft: &Draft, site: &Site) -> Option<Signs> {
    match draft.at(site) {
        Some(e) => match is_minus(e) {
            Some(minus) => Some(Signs {
                minus,
                left: is_negated_product(e, 0),
                right: is_negated_product(e, 1),
            }),
            None => None,
        },
        None => None,
    }
}

/// Brings the signs of a sum's products into their factors or into the sum.
pub fn take_signs(alloc: Global, draft: &mut Draft, site: &Site) -> Result<bool, Memory> {
    match signs_at(draft, site) {
        Some(Signs { minus, left, right }) => {
            let turns = [
                when(left, LEFT, NEGATE_FACTOR),
                when(right && minus, RIGHT, NEGATE_FACTOR),
                when(right && !minus, HERE, SUBTRACT),
            ];
            follow(alloc, draft, site, &turns)
        }
        None => Ok(false),
    }
}

/// A drawn factor that both operands of a sum have.
fn drawn_factor<R: Rng>(
    alloc: Global,
    rng: &mut R,
    draft: &Draft,
    site: &Site,
) -> Result<Option<Common>, Memory> {
    match terms_at(draft, site) {
        Some((x, y)) => {
            let common = common_factors(alloc, x, y)?;
            Ok(drawn(rng, common))
        }
        None => Ok(None),
    }
}

/// Whether the operands of a sum have a factor in common.
fn is_factorable(alloc: Global, draft: &Draft, site: &Site) -> Result<bool, Memory> {
    match terms_at(draft, site) {
        Some((x, y)) => have_common(alloc, x, y),
        None => Ok(false),
    }
}

/// The site below another.
pub fn below(alloc: Global, site: &Site, path: &[u8]) -> Result<Site, Memory> {
    Ok(Site {
        place: site.place,
        path: joined(alloc, &site.path, path)?,
    })
}

/// `x * g + y * g` to `(x + y) * g`, where `g` stands at the right end of both products.
pub fn factor_ends(alloc: Global, draft: &mut Draft, site: &Site) -> Result<bool, Memory> {
    let rule = match draft.at(site) {
        Some(Expr::Sub(_, _)) => FACTOR_OF_DIFFERENCE,
        _ => FACTOR_OF_SUM,
    };
    draft.apply(alloc, site, HERE, rule)
}

/// `x * g + y * g` to `(x + y) * g`, for this `g`.
fn factor_common(
    alloc: Global,
    draft: &mut Draft,
    site: &Site,
    common: &Common,
) -> Result<bool, Memory> {
    if pull_operand(alloc, draft, site, 0, &common.left)?
        && pull_operand(alloc, draft, site, 1, &common.right)?
    {
        factor_ends(alloc, draft, site)
    } else {
        Ok(false)
    }
}

/// `x * g + y * g` to `(x + y) * g`, for a drawn `g`, where the signs are taken.
fn factor_drawn<R: Rng>(
    alloc: Global,
    rng: &mut R,
    draft: &mut Draft,
    site: &Site,
) -> Result<bool, Memory> {
    match drawn_factor(alloc, rng, draft, site)? {
        Some(common) => factor_common(alloc, draft, site, &common),
        None => Ok(false),
    }
}

/// `x * g + y * g` to `(x + y) * g`.
fn factor<R: Rng>(
    alloc: Global,
    rng: &mut R,
    draft: &mut Draft,
    site: &Site,
) -> Result<bool, Memory> {
    if is_factorable(alloc, draft, site)? && take_signs(alloc, draft, site)? {
        factor_drawn(alloc, rng, draft, site)
    } else {
        Ok(false)
    }
}

/// The operands of a sum or a difference.
pub fn terms(e: &Expr) -> Option<(&Expr, &Expr)> {
    match e {
        Expr::Add(a, b) => Some((a, b)),
        Expr::Sub(a, b) => Some((a, b)),
        _ => None,
    }
}

/// The operands of what stands at a site, if it is a sum or a difference.
pub fn terms_at<'a>(draft: &'a Draft, site: &Site) -> Option<(&'a Expr, &'a Expr)> {
    match draft.at(site) {
        Some(e) => terms(e),
        None => None,
    }
}

/// The operand of this number of what stands at a site.
pub fn operand_at<'a>(draft: &'a Draft, site: &Site, number: u8) -> Option<&'a Expr> {
    match draft.at(site) {
        Some(e) => operand(e, number),
        None => None,
    }
}

/// Appends the terms at this depth of a chain that have a factor in common with another term.
fn put_partners(
    alloc: Global,
    (left, right): (&Expr, &Expr),
    term: &Expr,
    depth: usize,
    found: &mut Vec<Term>,
) -> Result<(), Memory> {
    if have_common(alloc, right, term)? {
        found.push(Term {
            depth,
            is_first: false,
        })?;
    }
    if terms(left).is_none() && have_common(alloc, left, term)? {
        found.push(Term {
            depth,
            is_first: true,
        })?;
    }
    Ok(())
}

/// Appends those of so many terms at a chain's end that have a factor in common with another term.
fn put_all_partners(
    alloc: Global,
    chain: &Expr,
    term: &Expr,
    count: usize,
    found: &mut Vec<Term>,
) -> Result<(), Memory> {
    let mut here = chain;
    for depth in 0..count {
        match terms(here) {
            Some((left, right)) => {
                put_partners(alloc, (left, right), term, depth, found)?;
                here = left;
            }
            None => return Ok(()),
        }
    }
    Ok(())
}

/// Those of so many terms at a chain's end that have a factor in common with another term.
fn partners(alloc: Global, chain: &Expr, term: &Expr, count: usize) -> Result<Vec<Term>, Memory> {
    let mut found = Vec::new(alloc);
    put_all_partners(alloc, chain, term, count, &mut found)?;
    Ok(found)
}

/// One of these terms, drawn.
fn drawn_term<R: Rng>(rng: &mut R, found: &[Term]) -> Option<Term> {
    match draw_index(rng, found.len()) {
        Some(i) => found.get(i).copied(),
        None => None,
    }
}

/// A drawn partner of the last term of the chain at a site, near enough for the steps that are left.
fn drawn_partner<R: Rng>(
    alloc: Global,
    rng: &mut R,
    draft: &Draft,
    site: &Site,
) -> Result<Option<Term>, Memory> {
    match terms_at(draft, site) {
        Some((chain, term)) => {
            let count = draft.room().saturating_sub(FACTOR_STEPS) / SWAP_STEPS;
            let found = partners(alloc, chain, term, count)?;
            Ok(drawn_term(rng, &found))
        }
        None => Ok(None),
    }
}

/// Turns the sum at a path below a site round.
fn turn_round_below(
    alloc: Global,
    draft: &mut Draft,
    site: &Site,
    way: &[u8],
) -> Result<bool, Memory> {
    let lowest = below(alloc, site, way)?;
    turn_round(alloc, draft, &lowest)
}

/// Swaps the last two terms of the chain at a path below a site.
fn swap_below(alloc: Global, draft: &mut Draft, site: &Site, way: &[u8]) -> Result<bool, Memory> {
    let here = below(alloc, site, way)?;
    swap(alloc, draft, &here)
}

/// Brings the last term of the chain at the end of a way so many terms to the right.
fn swap_up(
    alloc: Global,
    draft: &mut Draft,
    site: &Site,
    way: &mut Vec<u8>,
    depth: usize,
) -> Result<bool, Memory> {
    for _level in 0..depth {
        let _ = way.pop();
        if !swap_below(alloc, draft, site, way)? {
            return Ok(false);
        }
    }
    Ok(true)
}

/// Brings a term of the chain, to which this way leads, to the chain's right end.
fn bring_by(
    alloc: Global,
    draft: &mut Draft,
    site: &Site,
    way: &mut Vec<u8>,
    term: Term,
) -> Result<bool, Memory> {
    if !term.is_first || turn_round_below(alloc, draft, site, way)? {
        swap_up(alloc, draft, site, way, term.depth)
    } else {
        Ok(false)
    }
}

/// Brings a term of the chain to the chain's right end.
fn bring(alloc: Global, draft: &mut Draft, site: &Site, term: Term) -> Result<bool, Memory> {
    let mut way = vec![in alloc; 0_u8; term.depth.saturating_add(1)]?;
    bring_by(alloc, draft, site, &mut way, term)
}

/// Brings a term of the chain beside the last term of the sum at a site, so that both are its second operand.
pub fn bring_beside(
    alloc: Global,
    draft: &mut Draft,
    site: &Site,
    term: Term,
) -> Result<bool, Memory> {
    if bring(alloc, draft, site, term)? {
        rotate_right(alloc, draft, site)
    } else {
        Ok(false)
    }
}

/// Whether the first operand of the sum at a site is a sum.
fn is_chain(draft: &Draft, site: &Site) -> bool {
    match terms_at(draft, site) {
        Some((chain, _)) => is_minus(chain).is_some(),
        None => false,
    }
}

/// Factors the last term of a chain of sums with this one.
fn factor_with<R: Rng>(
    alloc: Global,
    rng: &mut R,
    draft: &mut Draft,
    site: &Site,
    term: Term,
) -> Result<bool, Memory> {
    if bring_beside(alloc, draft, site, term)? {
        let right = below(alloc, site, RIGHT)?;
        factor(alloc, rng, draft, &right)
    } else {
        Ok(false)
    }
}

/// Factors the last term of a chain of sums with another of its terms.
pub fn chain_factor<R: Rng>(
    alloc: Global,
    rng: &mut R,
    draft: &mut Draft,
    site: &Site,
) -> Result<bool, Memory> {
    if is_chain(draft, site) {
        match drawn_partner(alloc, rng, draft, site)? {
            Some(term) => factor_with(alloc, rng, draft, site, term),
            None => Ok(false),
        }
    } else {
        factor(alloc, rng, draft, site)
    }
}
