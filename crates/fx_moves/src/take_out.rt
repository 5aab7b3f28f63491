//! A variable taken out of two terms of a chain: `x * v + y * v` to `(x + y) * v`.

use crate::draft::{Draft, Site};
use crate::factor::{
    Term, below, bring_beside, factor_ends, factors, operand_at, pull_operand, take_signs, terms,
    terms_at, unsigned,
};
use crate::moves::{HERE, RIGHT, follow, is_minus, when};
use crate::rule::{EXCHANGE_TERMS, SUBTRACT};
use fx_expr::{Expr, at};
use fx_num::{HEIGHT_LIMIT, Memory};
use std::alloc::Global;

/// Whether a tree is the variable of this number: the inputs come first, then the temps.
fn is_variable(e: &Expr, inputs: u32, variable: u32) -> bool {
    match e {
        Expr::Input(k) => *k == variable,
        Expr::Temp(k) => k.saturating_add(inputs) == variable,
        _ => false,
    }
}

/// Whether the variable stands at a path.
fn is_variable_at(e: &Expr, path: &[u8], inputs: u32, variable: u32) -> bool {
    match at(e, path) {
        Some(factor) => is_variable(factor, inputs, variable),
        None => false,
    }
}

/// A copy of the first of these paths at which the variable stands.
fn first_variable(
    alloc: Global,
    e: &Expr,
    paths: &[Vec<u8>],
    inputs: u32,
    variable: u32,
) -> Result<Option<Vec<u8>>, Memory> {
    for path in paths {
        if is_variable_at(e, path, inputs, variable) {
            let found = Vec::from_slice(alloc, path)?;
            return Ok(Some(found));
        }
    }
    Ok(None)
}

/// The path of a variable among a product's factors.
fn variable_path(
    alloc: Global,
    e: &Expr,
    inputs: u32,
    variable: u32,
) -> Result<Option<Vec<u8>>, Memory> {
    if matches!(e, Expr::Mul(_, _)) {
        let paths = factors(alloc, e)?;
        first_variable(alloc, e, &paths, inputs, variable)
    } else {
        Ok(None)
    }
}

/// Whether a term has the variable as a factor, whatever its sign.
fn has_variable(alloc: Global, e: &Expr, inputs: u32, variable: u32) -> Result<bool, Memory> {
    let found = variable_path(alloc, unsigned(e), inputs, variable)?;
    Ok(found.is_some())
}

/// Whether both operands of a sum have it.
fn both_have(
    alloc: Global,
    draft: &Draft,
    site: &Site,
    inputs: u32,
    variable: u32,
) -> Result<bool, Memory> {
    match terms_at(draft, site) {
        Some((x, y)) => {
            let first = has_variable(alloc, x, inputs, variable)?;
            Ok(first && has_variable(alloc, y, inputs, variable)?)
        }
        None => Ok(false),
    }
}

/// Whether a sum begins with a negation.
fn begins_negated(e: &Expr) -> bool {
    match e {
        Expr::Add(a, _) => matches!(**a, Expr::Neg(_)),
        _ => false,
    }
}

/// `-a + b` to `b - a`.
fn turn_sign(alloc: Global, draft: &mut Draft, site: &Site) -> Result<(), Memory> {
    let is_turned = match draft.at(site) {
        Some(e) => begins_negated(e),
        None => false,
    };
    let turns = [
        when(is_turned, HERE, EXCHANGE_TERMS),
        when(is_turned, HERE, SUBTRACT),
    ];
    let _ = follow(alloc, draft, site, &turns)?;
    Ok(())
}

/// The path of a variable among the factors of the operand of this number.
fn variable_path_at(
    alloc: Global,
    draft: &Draft,
    site: &Site,
    number: u8,
    inputs: u32,
    variable: u32,
) -> Result<Option<Vec<u8>>, Memory> {
    match operand_at(draft, site, number) {
        Some(e) => variable_path(alloc, e, inputs, variable),
        None => Ok(None),
    }
}

/// Brings a variable to the right end of the product that is the operand of this number.
fn pull_variable(
    alloc: Global,
    draft: &mut Draft,
    site: &Site,
    number: u8,
    inputs: u32,
    variable: u32,
) -> Result<bool, Memory> {
    match variable_path_at(alloc, draft, site, number, inputs, variable)? {
        Some(path) => pull_operand(alloc, draft, site, number, &path),
        None => Ok(false),
    }
}

/// Takes a sum's signs into its factors or into the sum.
fn turn_signs(alloc: Global, draft: &mut Draft, site: &Site) -> Result<bool, Memory> {
    turn_sign(alloc, draft, site)?;
    take_signs(alloc, draft, site)
}

/// `x * v + y * v` to `(x + y) * v`, where `v` may stand anywhere in both products, and the signs are taken.
fn take_out_unsigned(
    alloc: Global,
    draft: &mut Draft,
    site: &Site,
    inputs: u32,
    variable: u32,
) -> Result<bool, Memory> {
    if pull_variable(alloc, draft, site, 0, inputs, variable)?
        && pull_variable(alloc, draft, site, 1, inputs, variable)?
    {
        factor_ends(alloc, draft, site)
    } else {
        Ok(false)
    }
}

/// `x * v + y * v` to `(x + y) * v`.
fn take_out(
    alloc: Global,
    draft: &mut Draft,
    site: &Site,
    inputs: u32,
    variable: u32,
) -> Result<bool, Memory> {
    if both_have(alloc, draft, site, inputs, variable)? && turn_signs(alloc, draft, site)? {
        take_out_unsigned(alloc, draft, site, inputs, variable)
    } else {
        Ok(false)
    }
}

/// The term at this depth of a chain that has the variable.
fn partner_at(
    alloc: Global,
    (left, right): (&Expr, &Expr),
    depth: usize,
    inputs: u32,
    variable: u32,
) -> Result<Option<Term>, Memory> {
    if has_variable(alloc, right, inputs, variable)? {
        Ok(Some(Term {
            depth,
            is_first: false,
        }))
    } else if terms(left).is_none() && has_variable(alloc, left, inputs, variable)? {
        Ok(Some(Term {
            depth,
            is_first: true,
        }))
    } else {
        Ok(None)
    }
}

/// The nearest term of a chain that has the variable.
fn partner(
    alloc: Global,
    chain: &Expr,
    inputs: u32,
    variable: u32,
) -> Result<Option<Term>, Memory> {
    let mut here = chain;
    for depth in 0..HEIGHT_LIMIT as usize {
        match terms(here) {
            Some((left, right)) => {
                let found = partner_at(alloc, (left, right), depth, inputs, variable)?;
                if found.is_some() {
                    return Ok(found);
                }
                here = left;
            }
            None => return Ok(None),
        }
    }
    Ok(None)
}

/// What stands before the last term of a chain.
enum Front {
    /// Nothing that has the variable, or the last term hasn't.
    Nothing,
    /// One term.
    Single,
    /// A chain, with this term.
    Chain(Term),
}

/// Where the variable stands in what is before the last term, which has it.
fn front_before(alloc: Global, chain: &Expr, inputs: u32, variable: u32) -> Result<Front, Memory> {
    if is_minus(chain).is_none() {
        Ok(Front::Single)
    } else {
        match partner(alloc, chain, inputs, variable)? {
            Some(term) => Ok(Front::Chain(term)),
            None => Ok(Front::Nothing),
        }
    }
}

/// Where the variable stands before the last term of the chain at a site, which has it too.
fn front_of(
    alloc: Global,
    draft: &Draft,
    site: &Site,
    inputs: u32,
    variable: u32,
) -> Result<Front, Memory> {
    match terms_at(draft, site) {
        Some((chain, last)) => if has_variable(alloc, last, inputs, variable)? {
            front_before(alloc, chain, inputs, variable)
        } else {
            Ok(Front::Nothing)
        },
        None => Ok(Front::Nothing),
    }
}

/// Takes the variable out of the last term of the chain at a site and this one.
fn take_out_with(
    alloc: Global,
    draft: &mut Draft,
    site: &Site,
    term: Term,
    inputs: u32,
    variable: u32,
) -> Result<bool, Memory> {
    if bring_beside(alloc, draft, site, term)? {
        let right = below(alloc, site, RIGHT)?;
        take_out(alloc, draft, &right, inputs, variable)
    } else {
        Ok(false)
    }
}

/// Takes the variable out of the last term of the chain at a site and the nearest other that has it.
pub(crate) fn factor_at(
    alloc: Global,
    draft: &mut Draft,
    site: &Site,
    inputs: u32,
    variable: u32,
) -> Result<bool, Memory> {
    match front_of(alloc, draft, site, inputs, variable)? {
        Front::Nothing => Ok(false),
        Front::Single => take_out(alloc, draft, site, inputs, variable),
        Front::Chain(term) => take_out_with(alloc, draft, site, term, inputs, variable),
    }
}
