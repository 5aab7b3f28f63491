//! Chains of images, and where they are closed.
//!
//! A template is shown by its image, that by the next, and so on. Inside a chain nothing is lost; only where it is
//! closed, on the unit templates, on itself or by an exchange. With every bound at its reach and a room for the whole
//! chain, a closing holds exactly where what it costs is at most the image's reach and that room.

use crate::ahead::Ahead;
use crate::whole::{PLACES, floor_at, moved_down, product, share_of, sum, whole_at};
use fx_num::{Dyadic, Memory, floor_shift};
use std::alloc::Global;

/// What was looked at from a template on, and the state whose unit template it is, if it is one.
#[derive(Drop)]
pub struct Chain {
    pub ahead: Ahead,
    pub state: Option<usize>,
}

/// How wide the unit templates reach, and what they cost with their room.
#[derive(Drop)]
pub struct Costs {
    widths: Vec<i128>,
    costs: Vec<i128>,
    /// The room is the width of a chain's first template over `2^shift`.
    pub shift: i32,
}

impl Costs {
    /// Those of chains that begin with all unit templates.
    pub fn of(alloc: Global, chains: &[Chain], shift: i32) -> Result<Costs, Memory> {
        let mut own = Costs {
            widths: Vec::new(alloc),
            costs: Vec::new(alloc),
            shift,
        };
        for chain in chains {
            own.add(chain)?;
        }
        Ok(own)
    }

    /// Adds those of a chain, if it begins with a unit template.
    fn add(&mut self, chain: &Chain) -> Result<(), Memory> {
        if chain.state.is_some() {
            let width = chain.ahead.templates.width(0);
            self.widths.push(width)?;
            self.costs
                .push(width.saturating_add(room(width, self.shift)))?;
        }
        Ok(())
    }

    /// How much a state weighs in a template.
    fn weight(&self, template: &[i128], j: usize) -> u128 {
        let r = whole_at(template, j);
        let width = whole_at(&self.widths, j);
        r.unsigned_abs().saturating_mul(width.unsigned_abs())
    }

    /// The state that weighs most in a template.
    fn heaviest(&self, template: &[i128]) -> usize {
        let mut best = 0;
        let mut most = 0;
        for j in 0..self.widths.len() {
            let weight = self.weight(template, j);
            if weight > most {
                most = weight;
                best = j;
            }
        }
        best
    }
}

/// The room of a chain whose first template is so wide.
pub fn room(width: i128, shift: i32) -> i128 {
    moved_down(width, shift).unwrap_or(0)
}

/// `parts` of `whole` parts of a width.
pub fn room_part(width: i128, parts: i128, whole: i128) -> i128 {
    width.saturating_mul(parts).checked_div(whole).unwrap_or(0)
}

/// What an entry costs, if it is there.
fn entry_cost(r: Option<i128>, cost: i128) -> Option<i128> {
    match r {
        Some(r) => match r.checked_abs() {
            Some(size) => size.checked_mul(cost),
            None => None,
        },
        None => None,
    }
}

/// Entries' costs as they are counted of templates.
fn cost_of(total: Option<i128>) -> Option<i128> {
    match total {
        Some(total) => Some(floor_shift(total, PLACES)),
        None => None,
    }
}

/// What a template costs on the unit templates.
pub fn unit_cost(template: &[i128], costs: &[i128]) -> Option<i128> {
    let mut total = Some(0);
    for j in 0..costs.len() {
        total = sum(
            total,
            entry_cost(Some(whole_at(template, j)), whole_at(costs, j)),
        );
    }
    cost_of(total)
}

/// What so many times an entry leave of its image.
fn left_entry(r: i128, q: i128, times: i128) -> Option<i128> {
    match product(times, q, PLACES) {
        Some(taken) => r.checked_sub(taken),
        None => None,
    }
}

/// What so many times a template leave of its image costs on the unit templates.
fn left_cost(image: &[i128], template: &[i128], times: i128, costs: &[i128]) -> Option<i128> {
    let mut total = Some(0);
    for j in 0..costs.len() {
        let left = left_entry(whole_at(image, j), whole_at(template, j), times);
        total = sum(total, entry_cost(left, whole_at(costs, j)));
    }
    cost_of(total)
}

/// How often a template is taken of itself, by the state that weighs most in its image.
fn own_times(image: &[i128], template: &[i128], costs: &Costs) -> Option<Dyadic> {
    let j = costs.heaviest(image);
    let r = whole_at(image, j);
    let q = whole_at(template, j);
    if r.signum() != q.signum() || r == 0 || r.unsigned_abs() >= q.unsigned_abs() {
        None
    } else {
        share_of(r, q)
    }
}

/// What the image of template `i` costs that takes so many times that template.
fn own_cost(ahead: &Ahead, i: usize, times: Dyadic, costs: &Costs) -> Option<i128> {
    let template = ahead.templates.template(i);
    let image = ahead.templates.template(i.saturating_add(1));
    let room = room(ahead.templates.width(0), costs.shift);
    match (
        floor_at(times, PLACES as i32),
        ahead.templates.width(i).checked_add(room),
    ) {
        (Some(whole), Some(own)) => sum(
            product(whole, own, PLACES),
            left_cost(image, template, whole, &costs.costs),
        ),
        _ => None,
    }
}

/// These times, if the image of template `i` that takes them costs no more than the limit.
fn within(ahead: &Ahead, i: usize, times: Dyadic, costs: &Costs, limit: i128) -> Option<Dyadic> {
    match own_cost(ahead, i, times, costs) {
        Some(cost) => if cost <= limit { Some(times) } else { None },
        None => None,
    }
}

/// How often the image of template `i` takes that template, where the chain can be closed on it within the limit.
fn on_itself(ahead: &Ahead, i: usize, costs: &Costs, limit: i128) -> Option<Dyadic> {
    let template = ahead.templates.template(i);
    let image = ahead.templates.template(i.saturating_add(1));
    match own_times(image, template, costs) {
        Some(times) => if i > 0 {
            within(ahead, i, times, costs, limit)
        } else {
            None
        },
        None => None,
    }
}

/// What a template may cost at most behind which a chain is closed: its reach and the chain's room, and next to nothing
/// more.
fn limit_at(ahead: &Ahead, i: usize, costs: &Costs) -> Option<i128> {
    let first = ahead.templates.width(0);
    let room = room(first, costs.shift);
    sum(
        ahead.templates.width(i).checked_add(room),
        Some(first >> 30),
    )
}

/// How often the image of template `i` takes that template, where the chain can be closed behind it: not at all where
/// the unit templates suffice.
pub fn find_closing(ahead: &Ahead, i: usize, costs: &Costs) -> Option<Dyadic> {
    let next = i.saturating_add(1);
    let cost = unit_cost(ahead.templates.template(next), &costs.costs);
    match (cost, limit_at(ahead, next, costs)) {
        (Some(cost), Some(limit)) => if cost <= limit {
            Some(Dyadic { m: 0, e: 0 })
        } else {
            on_itself(ahead, i, costs, limit)
        },
        _ => None,
    }
}

/// How many templates a chain wants to have: up to the first behind which it can be closed, else all that were looked
/// at.
pub fn wanted_length(ahead: &Ahead, costs: &Costs) -> usize {
    let end = ahead.templates.len().saturating_sub(1);
    for i in 0..end {
        if find_closing(ahead, i, costs).is_some() {
            return i.saturating_add(1);
        }
    }
    end
}

/// The times 0, 1, 2 and so on below an end, and then steps that grow as the time over `g`.
fn growing_times(alloc: Global, end: usize, g: usize, most: usize) -> Result<Vec<usize>, Memory> {
    let mut times = Vec::new(alloc);
    let mut t: usize = 0;
    for _turn in 0..most.saturating_add(1) {
        if t >= end {
            break;
        }
        times.push(t)?;
        t = t.saturating_add(t.checked_div(g).unwrap_or(0).max(1));
    }
    Ok(times)
}

/// The first `count` times.
fn first_times(alloc: Global, count: usize) -> Result<Vec<usize>, Memory> {
    let mut times = Vec::new(alloc);
    for t in 0..count {
        times.push(t)?;
    }
    Ok(times)
}

/// The times of the templates that are kept of a chain that wants to have `length` and is closed behind them or not, at
/// most so many; none where they don't suffice.
pub fn times_of(
    alloc: Global,
    length: usize,
    is_closed: bool,
    most: usize,
    is_growing: bool,
) -> Result<Option<Vec<usize>>, Memory> {
    let count = length.min(most);
    if !is_growing || (is_closed && count == length) {
        return Ok(Some(first_times(alloc, count)?));
    }
    let mut g: usize = 512;
    for _turn in 0..128 {
        let times = growing_times(alloc, length, g, most)?;
        if times.len() <= count {
            return Ok(Some(times));
        }
        if g <= 4 {
            return Ok(None);
        }
        g = g.saturating_sub((g / 16).max(1));
    }
    Ok(None)
}
