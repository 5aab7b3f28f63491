//! What a try begins with: random moves from a draft, or a draft that is factored from the source.

use crate::cleaning::{clean, clean_all};
use crate::draft::{Draft, Site};
use crate::drawing::{draw, draw_index};
use crate::factor::chain_factor;
use crate::moves::{HERE, rotate_left, rotate_right, swap};
use crate::rule::rules_of;
use crate::site::{operations, site_of};
use fx_expr::Function;
use fx_num::Memory;
use rand_core::Rng;
use std::alloc::Global;

/// How often a place and a move are drawn before a random move is given up.
const DRAWS: u32 = 10;

/// At most so many sums are looked at for one that can be factored, times the operations of the function.
const LOOKS: u32 = 1 << 16;

/// Takes a drawn one out of a list, if there is any.
fn take_drawn<R: Rng, T: Copy>(rng: &mut R, list: &mut Vec<T>) -> Option<T> {
    match draw_index(rng, list.len()) {
        Some(i) => Some(list.swap_remove(i)),
        None => None,
    }
}

/// Applies one of these rules that matches the tree at a site, each with the same chance.
fn any_rule<R: Rng>(
    alloc: Global,
    rng: &mut R,
    draft: &mut Draft,
    site: &Site,
    rules: &mut Vec<u8>,
) -> Result<bool, Memory> {
    for _turn in 0..rules.len() {
        match take_drawn(rng, rules) {
            Some(rule) => if draft.apply(alloc, site, HERE, rule)? {
                return Ok(true);
            },
            None => return Ok(false),
        }
    }
    Ok(false)
}

/// Applies one rule that matches the tree at a site, each with the same chance.
fn single_rule<R: Rng>(
    alloc: Global,
    rng: &mut R,
    draft: &mut Draft,
    site: &Site,
) -> Result<bool, Memory> {
    match draft.at(site) {
        Some(e) => {
            let mut rules = Vec::from_slice(alloc, rules_of(e))?;
            any_rule(alloc, rng, draft, site, &mut rules)
        }
        None => Ok(false),
    }
}

/// A random move at a site: three times of ten a single rule.
fn move_at<R: Rng>(
    alloc: Global,
    rng: &mut R,
    draft: &mut Draft,
    site: &Site,
) -> Result<bool, Memory> {
    if draw(rng, 10) < 3 {
        single_rule(alloc, rng, draft, site)
    } else {
        match draw(rng, 5) {
            0 => swap(alloc, draft, site),
            1 => rotate_left(alloc, draft, site),
            2 => rotate_right(alloc, draft, site),
            3 => chain_factor(alloc, rng, draft, site),
            _ => clean(alloc, draft, site),
        }
    }
}

/// A random site of a function, if it has an operation.
fn random_site<R: Rng>(
    alloc: Global,
    rng: &mut R,
    function: &Function,
) -> Result<Option<Site>, Memory> {
    let count = operations(function);
    if count == 0 {
        Ok(None)
    } else {
        let number = draw(rng, count);
        site_of(alloc, function, number)
    }
}

/// Tries a random move at a random operation, and answers whether it is the last try: one that changed anything, or of
/// a function without operations.
fn try_move<R: Rng>(alloc: Global, rng: &mut R, draft: &mut Draft) -> Result<bool, Memory> {
    match random_site(alloc, rng, &draft.function)? {
        Some(site) => move_at(alloc, rng, draft, &site),
        None => Ok(true),
    }
}

/// One random move at a random operation.
fn random_move<R: Rng>(alloc: Global, rng: &mut R, draft: &mut Draft) -> Result<(), Memory> {
    for _turn in 0..DRAWS {
        if try_move(alloc, rng, draft)? {
            return Ok(());
        }
    }
    Ok(())
}

/// One to so many random moves from a draft that is taken up.
pub fn mutate<R: Rng>(
    alloc: Global,
    rng: &mut R,
    draft: &mut Draft,
    most: u32,
) -> Result<(), Memory> {
    draft.take_up();
    let moves = draw(rng, most.max(1)).saturating_add(1);
    for _turn in 0..moves {
        random_move(alloc, rng, draft)?;
    }
    Ok(())
}

/// Numbers from 0 on.
fn numbers(alloc: Global, count: u32) -> Result<Vec<u32>, Memory> {
    let mut list = Vec::new(alloc);
    for number in 0..count {
        list.push(number)?;
    }
    Ok(list)
}

/// Factors the sum of this number, and answers whether it could be. None where there is no such operation.
fn factor_number<R: Rng>(
    alloc: Global,
    rng: &mut R,
    draft: &mut Draft,
    number: u32,
) -> Result<Option<bool>, Memory> {
    match site_of(alloc, &draft.function, number)? {
        Some(site) => {
            let is_factored = chain_factor(alloc, rng, draft, &site)?;
            Ok(Some(is_factored))
        }
        None => Ok(None),
    }
}

/// Factors one of these sums, drawn in random order, looking at so many.
fn factor_one_of<R: Rng>(
    alloc: Global,
    rng: &mut R,
    draft: &mut Draft,
    list: &mut Vec<u32>,
    looks: u32,
) -> Result<bool, Memory> {
    for _turn in 0..looks {
        let found = match take_drawn(rng, list) {
            Some(number) => factor_number(alloc, rng, draft, number)?,
            None => None,
        };
        match found {
            Some(true) => return Ok(true),
            Some(false) => {}
            None => return Ok(false),
        }
    }
    Ok(false)
}

/// Factors one of the sums, drawn in random order, and answers whether there was any that could be.
fn factor_any<R: Rng>(alloc: Global, rng: &mut R, draft: &mut Draft) -> Result<bool, Memory> {
    let count = operations(&draft.function);
    let mut list = numbers(alloc, count)?;
    let looks = count.min((LOOKS / count.max(1)).max(64));
    factor_one_of(alloc, rng, draft, &mut list, looks)
}

/// Cleans and factors the draft, in random order, until nothing is left.
pub fn factor_all<R: Rng>(alloc: Global, rng: &mut R, draft: &mut Draft) -> Result<(), Memory> {
    clean_all(alloc, draft)?;
    for _turn in 0..64 {
        if !factor_any(alloc, rng, draft)? {
            break;
        }
    }
    clean_all(alloc, draft)?;
    Ok(())
}
