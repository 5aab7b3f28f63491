//! Taking a template apart by others at a small cost: templates of a basis are exchanged one at a time, from the unit
//! templates on.
//!
//! What the shares leave of a template goes to the unit templates, so that nothing rests on how accurate this is, and
//! stopping at any time is lawful. Entries are floats, in coordinates in which each template costs 1, and the inverse
//! is made anew at each turn, so that no error adds up: directions that nearly cancel need all digits.

use crate::budget::Budget;
use crate::inverse::{entry_of, inverse};
use crate::scaled_templates::{ScaledTemplates, scaled, scaled_size};
use fx_cert::Share;
use fx_num::Memory;
use fx_template_reach::{SHARE_BITS, SHARE_PLACES, dyadic_near, size_of, to_float, whole_near};
use std::alloc::Global;

/// What a template has to gain to come into the basis.
const START: f64 = 1.0 + 1.0 / 4096.0;

/// An entry of a column is a pivot from here on.
const LEAST_PIVOT: f64 = 1.0e-9;

/// Times that differ by less are as good as one.
const SLACK: f64 = 1.0e-12;

/// A basis: its templates, each with a sign.
#[derive(Drop)]
struct Basis {
    templates: Vec<(usize, f64)>,
}

/// What a template takes apart to, and what that costs.
#[derive(Drop)]
pub struct Exchanged {
    pub cost: i128,
    pub shares: Vec<Share>,
}

/// The sum of the products of two rows.
fn dot(a: &[f64], b: &[f64]) -> f64 {
    let mut total = 0.0;
    for (x, y) in a.iter().zip(b) {
        total = total + *x * *y;
    }
    total
}

/// A template to come into the basis, and how much it gains.
#[derive(Clone, Copy)]
struct Entering {
    template: usize,
    gain: f64,
}

impl Entering {
    /// Its sign in the basis.
    fn sign(self) -> f64 {
        if self.gain < 0.0 { -1.0 } else { 1.0 }
    }
}

/// The template that gains most, by what each state is worth.
fn best_gain(templates: &ScaledTemplates<'_>, worth: &[f64]) -> Option<Entering> {
    let mut best = None;
    let mut most = START;
    for i in 0..templates.costs.len() {
        let gain = dot(worth, templates.template(i));
        if size_of(gain) > most {
            most = size_of(gain);
            best = Some(Entering { template: i, gain });
        }
    }
    best
}

/// The template of the basis that is used up first, and of those that are so at about the same time the one with the
/// greatest pivot: a small one would make the inverse's numbers long.
fn leaving(times: &[f64], column: &[f64]) -> Option<usize> {
    let mut best = None;
    let mut least = 0.0;
    let mut pivot = 0.0;
    for a in 0..times.len() {
        let own = entry_of(column, a);
        if own > LEAST_PIVOT {
            let ratio = times[a] / own;
            if best.is_none() || ratio < least - SLACK || (ratio <= least + SLACK && own > pivot) {
                best = Some(a);
                least = ratio;
                pivot = own;
            }
        }
    }
    best
}

/// What a matrix makes of a vector.
fn image(alloc: Global, rows: &[Vec<f64>], vector: &[f64]) -> Result<Vec<f64>, Memory> {
    let mut image = Vec::new(alloc);
    for row in rows {
        image.push(dot(row, vector))?;
    }
    Ok(image)
}

/// Adds a row.
fn add_row(sums: &mut [f64], row: &[f64]) {
    for k in 0..sums.len() {
        sums[k] = sums[k] + entry_of(row, k);
    }
}

/// Sums of a matrix's columns.
fn column_sums(alloc: Global, rows: &[Vec<f64>]) -> Result<Vec<f64>, Memory> {
    let mut sums = vec![in alloc; 0.0_f64; rows.len()]?;
    for row in rows {
        add_row(&mut sums, row);
    }
    Ok(sums)
}

/// Puts 0 in the place of each number below it.
fn not_negative(numbers: &mut Vec<f64>) {
    for x in numbers.iter_mut() {
        if *x < 0.0 {
            *x = 0.0;
        }
    }
}

/// What is asked of the cost of a goal.
#[derive(Clone, Copy)]
enum Asked {
    /// The least there is.
    Least,
    /// Whether it is at most so much.
    AtMost(f64),
}

impl Asked {
    /// Whether a cost that can be had says enough, where this template gains most: no cost is below what can be had
    /// over that gain.
    fn is_decided(self, cost: f64, entering: Entering) -> bool {
        match self {
            Asked::Least => false,
            Asked::AtMost(limit) => cost <= limit || cost > limit * size_of(entering.gain),
        }
    }
}

impl Basis {
    /// The unit templates, with the signs of a template.
    fn units(alloc: Global, template: &[f64]) -> Result<Basis, Memory> {
        let mut templates = Vec::new(alloc);
        for j in 0..template.len() {
            templates.push((j, if template[j] < 0.0 { -1.0 } else { 1.0 }))?;
        }
        Ok(Basis { templates })
    }

    /// Row `j` of the matrix whose columns are the basis, and beside it that of the unit matrix.
    fn row(
        &self,
        alloc: Global,
        templates: &ScaledTemplates<'_>,
        j: usize,
    ) -> Result<Vec<f64>, Memory> {
        let mut row = Vec::new(alloc);
        for (i, sign) in &self.templates {
            row.push(entry_of(templates.template(*i), j) * *sign)?;
        }
        for k in 0..self.templates.len() {
            row.push(if k == j { 1.0 } else { 0.0 })?;
        }
        Ok(row)
    }

    /// The inverse of the matrix whose columns are the basis.
    fn inverse(
        &self,
        alloc: Global,
        templates: &ScaledTemplates<'_>,
    ) -> Result<Option<Vec<Vec<f64>>>, Memory> {
        let mut rows = Vec::new(alloc);
        for j in 0..self.templates.len() {
            rows.push(self.row(alloc, templates, j)?)?;
        }
        inverse(alloc, rows)
    }

    /// Puts a template in the place of one of the basis, and gives that.
    fn put(&mut self, place: usize, template: (usize, f64)) -> (usize, f64) {
        match self.templates.get_mut(place) {
            Some(slot) => {
                let before = *slot;
                *slot = template;
                before
            }
            None => template,
        }
    }

    /// The next exchange: which place the entering template takes. None where there is nothing to gain, or where what
    /// the least cost is said to be compared with is decided.
    fn next(
        &self,
        alloc: Global,
        templates: &ScaledTemplates<'_>,
        inverse: &[Vec<f64>],
        goal: &[f64],
        asked: Asked,
    ) -> Result<Option<(usize, (usize, f64))>, Memory> {
        let worth = column_sums(alloc, inverse)?;
        match best_gain(templates, &worth) {
            Some(entering) => entering.exchanged(alloc, templates, inverse, goal, asked),
            None => Ok(None),
        }
    }

    /// Puts a template at a place of the basis, and makes its inverse anew. False where there is none: then both stay.
    fn exchange_at(
        &mut self,
        alloc: Global,
        templates: &ScaledTemplates<'_>,
        inverse: &mut Vec<Vec<f64>>,
        place: usize,
        template: (usize, f64),
    ) -> Result<bool, Memory> {
        let before = self.put(place, template);
        match self.inverse(alloc, templates)? {
            Some(next) => {
                *inverse = next;
                Ok(true)
            }
            None => {
                self.put(place, before);
                Ok(false)
            }
        }
    }

    /// One exchange, if something is gained. Whether one was made.
    fn improve(
        &mut self,
        alloc: Global,
        templates: &ScaledTemplates<'_>,
        inverse: &mut Vec<Vec<f64>>,
        goal: &[f64],
        asked: Asked,
    ) -> Result<bool, Memory> {
        match self.next(alloc, templates, inverse, goal, asked)? {
            Some((place, template)) => self.exchange_at(alloc, templates, inverse, place, template),
            None => Ok(false),
        }
    }
}

impl Entering {
    /// The exchange that takes it into the basis with this inverse, likewise.
    fn exchanged(
        self,
        alloc: Global,
        templates: &ScaledTemplates<'_>,
        inverse: &[Vec<f64>],
        goal: &[f64],
        asked: Asked,
    ) -> Result<Option<(usize, (usize, f64))>, Memory> {
        let mut times = image(alloc, inverse, goal)?;
        not_negative(&mut times);
        if asked.is_decided(total_size(&times), self) {
            Ok(None)
        } else {
            self.placed(alloc, templates, inverse, &times)
        }
    }

    /// The place that it takes of a basis whose templates are taken so often.
    fn placed(
        self,
        alloc: Global,
        templates: &ScaledTemplates<'_>,
        inverse: &[Vec<f64>],
        times: &[f64],
    ) -> Result<Option<(usize, (usize, f64))>, Memory> {
        let mut column = image(alloc, inverse, templates.template(self.template))?;
        for k in 0..column.len() {
            column[k] = column[k] * self.sign();
        }
        match leaving(times, &column) {
            Some(place) => Ok(Some((place, (self.template, self.sign())))),
            None => Ok(None),
        }
    }
}

/// Exchanges templates of a basis with this inverse, as long as something is gained and the budget allows.
fn improve_all(
    alloc: Global,
    templates: &ScaledTemplates<'_>,
    basis: &mut Basis,
    inverse: &mut Vec<Vec<f64>>,
    goal: &[f64],
    asked: Asked,
    budget: &mut Budget,
) -> Result<(), Memory> {
    let work = step_work(templates);
    for _turn in 0..templates.states().saturating_mul(8).saturating_add(16) {
        if !(budget.take(work) && basis.improve(alloc, templates, inverse, goal, asked)?) {
            return Ok(());
        }
    }
    Ok(())
}

/// Exchanges templates of a basis likewise, and gives its inverse.
fn improve(
    alloc: Global,
    templates: &ScaledTemplates<'_>,
    basis: &mut Basis,
    goal: &[f64],
    asked: Asked,
    budget: &mut Budget,
) -> Result<Option<Vec<Vec<f64>>>, Memory> {
    match basis.inverse(alloc, templates)? {
        Some(first) => {
            let mut inverse = first;
            improve_all(alloc, templates, basis, &mut inverse, goal, asked, budget)?;
            Ok(Some(inverse))
        }
        None => Ok(None),
    }
}

/// Puts a share where its template stands in the order of templates.
fn insert(shares: &mut Vec<Share>, share: Share) -> Result<(), Memory> {
    let mut place: usize = 0;
    for other in shares.iter() {
        if other.template < share.template {
            place = place.saturating_add(1);
        }
    }
    if place <= shares.len() {
        shares.insert(place, share)?;
    }
    Ok(())
}

/// How many places a share of a template has, whose cost is so much of the whole: of one that costs next to nothing the
/// last places would only get sums of a checker beyond 128 bits.
fn places_of(part: f64) -> u32 {
    let mut places = SHARE_PLACES;
    let mut part = part;
    for _step in 0..SHARE_PLACES {
        if part < 1.0 {
            part = part * 2.0;
            places = places.saturating_sub(1);
        }
    }
    places
}

/// How often template `i` is taken, as a share, where it costs such a part of the whole.
fn share_of(templates: &ScaledTemplates<'_>, i: usize, times: f64, part: f64) -> Option<Share> {
    if i < templates.states() {
        return None;
    }
    match (
        u32::try_from(i),
        dyadic_near(times, SHARE_BITS, places_of(part)),
    ) {
        (Ok(template), Some(times)) => Some(Share { template, times }),
        _ => None,
    }
}

/// The shares of a basis whose templates are taken so often.
fn shares_of(
    alloc: Global,
    templates: &ScaledTemplates<'_>,
    basis: &Basis,
    times: &[f64],
    cost: f64,
) -> Result<Vec<Share>, Memory> {
    let mut shares = Vec::new(alloc);
    for a in 0..basis.templates.len().min(times.len()) {
        let (i, sign) = basis.templates[a];
        let part = entry_of(&templates.costs, i) / cost;
        if let Some(share) = share_of(templates, i, times[a] * sign / part, part) {
            insert(&mut shares, share)?;
        }
    }
    Ok(shares)
}

/// How great all numbers are together.
fn total_size(numbers: &[f64]) -> f64 {
    let mut total = 0.0;
    for x in numbers {
        total = total + size_of(*x);
    }
    total
}

/// How many products one exchange comes to, about.
fn step_work(templates: &ScaledTemplates<'_>) -> u64 {
    let states = templates.states();
    let square = states.saturating_mul(states);
    templates
        .costs
        .len()
        .saturating_add(square.saturating_mul(2))
        .saturating_mul(states) as u64
}

/// Takes a template of 48 binary places apart, as well as the budget allows.
pub fn exchange(
    alloc: Global,
    scaled_templates: &ScaledTemplates<'_>,
    template: &[i128],
    budget: &mut Budget,
) -> Result<Exchanged, Memory> {
    let cost = scaled_size(template, &scaled_templates.costs);
    if cost > 0.0 {
        let goal = scaled(alloc, template, &scaled_templates.costs, cost)?;
        exchange_goal(alloc, scaled_templates, &goal, cost, budget)
    } else {
        Ok(nothing(alloc))
    }
}

/// A template that is taken apart to nothing.
fn nothing(alloc: Global) -> Exchanged {
    Exchanged {
        cost: 0,
        shares: Vec::new(alloc),
    }
}

/// Takes a template apart of which so many parts are the goal, likewise.
fn exchange_goal(
    alloc: Global,
    templates: &ScaledTemplates<'_>,
    goal: &[f64],
    cost: f64,
    budget: &mut Budget,
) -> Result<Exchanged, Memory> {
    let mut basis = Basis::units(alloc, goal)?;
    match improve(alloc, templates, &mut basis, goal, Asked::Least, budget)? {
        Some(inverse) => take_by_basis(alloc, templates, &basis, &inverse, goal, cost),
        None => Ok(nothing(alloc)),
    }
}

/// Takes a goal apart by a basis with this inverse.
fn take_by_basis(
    alloc: Global,
    templates: &ScaledTemplates<'_>,
    basis: &Basis,
    inverse: &[Vec<f64>],
    goal: &[f64],
    cost: f64,
) -> Result<Exchanged, Memory> {
    let times = image(alloc, inverse, goal)?;
    let shares = shares_of(alloc, templates, basis, &times, cost)?;
    Ok(Exchanged {
        cost: whole_near(total_size(&times) * cost, 0).unwrap_or(i128::MAX),
        shares,
    })
}

/// Whether taking a template of 48 binary places apart costs at most so much, as well as the budget lets that be seen.
/// It is looked for no longer than until that is decided.
pub fn costs_at_most(
    alloc: Global,
    scaled_templates: &ScaledTemplates<'_>,
    template: &[i128],
    limit: i128,
    budget: &mut Budget,
) -> Result<bool, Memory> {
    let cost = scaled_size(template, &scaled_templates.costs);
    if cost > 0.0 {
        let goal = scaled(alloc, template, &scaled_templates.costs, cost)?;
        let most = to_float(limit) / cost;
        goal_costs_at_most(alloc, scaled_templates, &goal, most, budget)
    } else {
        Ok(true)
    }
}

/// Whether a goal costs at most so much of what it does on the unit templates, likewise.
fn goal_costs_at_most(
    alloc: Global,
    templates: &ScaledTemplates<'_>,
    goal: &[f64],
    most: f64,
    budget: &mut Budget,
) -> Result<bool, Memory> {
    let mut basis = Basis::units(alloc, goal)?;
    let asked = Asked::AtMost(most);
    match improve(alloc, templates, &mut basis, goal, asked, budget)? {
        Some(inverse) => {
            let times = image(alloc, &inverse, goal)?;
            Ok(total_size(&times) <= most)
        }
        None => Ok(false),
    }
}
