//! Bounds for templates with shares: from the guessed reaches, outward until a pass proves them, and lowered again.
//!
//! Each template's bound is whole at a power of two of its own, so that products of coefficients and bounds fit 128
//! bits whatever the scales of the states are.

use crate::ends::{Ends, plus, widened};
use crate::left::{Left, left_of};
use crate::order::put_without_cycle;
use crate::start::fixed_point;
use fx_num::{Interval, Memory, bits, left_fits, lowest};
use fx_simplex::entry_of;
use fx_template_reach::{Linear, Pool, moved_down, moved_up, to_float, whole_near};
use std::alloc::Global;
use std::mem::replace;

/// How many bits a bound has about.
const BOUND_BITS: i64 = 36;

/// The left sides of all templates, and how many places their bounds have.
#[derive(Drop)]
pub struct System {
    lefts: Vec<Left>,
    places: Vec<i32>,
    states: usize,
    /// The templates whose bounds are sums of drives alone, each behind those that it takes.
    straight: Vec<usize>,
}

/// Whether a bound moved by more than next to nothing.
fn has_moved(old: Ends, new: Ends) -> Option<bool> {
    match (
        distance(new.lo.checked_sub(old.lo)),
        distance(new.hi.checked_sub(old.hi)),
    ) {
        (Some(lo), Some(hi)) => is_more(left_fits(lo.max(hi), 14), new.width()),
        _ => None,
    }
}

/// How far from 0 a number is, if it is there.
fn distance(x: Option<i128>) -> Option<i128> {
    match x {
        Some(x) => x.checked_abs(),
        None => None,
    }
}

/// Whether a number is greater than another, if it is there.
fn is_more(x: Option<i128>, other: i128) -> Option<bool> {
    match x {
        Some(x) => Some(x > other),
        None => None,
    }
}

/// The lower end of a guess so much below an end, with so many places less.
fn lower_guess(lo: i128, half: i128, down: i32) -> Option<i128> {
    match lo.checked_sub(half) {
        Some(x) => plus(moved_down(x, down), -1),
        None => None,
    }
}

/// The upper end of a guess so much above an end, likewise.
fn upper_guess(hi: i128, half: i128, down: i32) -> Option<i128> {
    match hi.checked_add(half) {
        Some(x) => plus(moved_up(x, down), 1),
        None => None,
    }
}

/// Whether one of two is true, if both are there.
fn either(a: Option<bool>, b: Option<bool>) -> Option<bool> {
    match (a, b) {
        (Some(a), Some(b)) => Some(a || b),
        _ => None,
    }
}

/// Ends with so many places less, outward.
fn reach_of(ends: Ends, up: i32) -> Option<(i128, i128)> {
    match (moved_down(ends.lo, up), moved_up(ends.hi, up)) {
        (Some(lo), Some(hi)) => Some((lo, hi)),
        _ => None,
    }
}

/// How many places the bounds have, template by template.
fn put_places(places: &mut Vec<i32>, pool: &Pool) -> Result<(), Memory> {
    for i in 0..pool.templates.len() {
        let length = i64::from(bits(pool.templates.width(i).max(1).unsigned_abs()));
        let e = BOUND_BITS
            .saturating_sub(i64::from(pool.spared))
            .saturating_sub(length)
            .saturating_add(i64::from(pool.scale));
        places.push(e.clamp(0, 90) as i32)?;
    }
    Ok(())
}

/// Ends that go so far to each side of a middle.
fn ends_about(middle: f64, half: f64) -> Option<Ends> {
    match (whole_near(middle - half, 0), whole_near(middle + half, 0)) {
        (Some(lo), Some(hi)) => Some(Ends {
            lo: lo.saturating_sub(1),
            hi: hi.saturating_add(1),
        }),
        _ => None,
    }
}

/// Raises a bound to its left side. Whether it had to be.
fn raise_to(slot: &mut Ends, new: Ends) -> bool {
    let is_raised = !slot.hold(new);
    if is_raised {
        *slot = slot.and(new);
    }
    is_raised
}

/// Lowers a bound to its left side. Whether it is a unit bound that gained.
fn lower_to(slot: &mut Ends, new: Ends, is_unit: bool) -> Option<bool> {
    let cut = slot.cut(new);
    let old = replace(slot, cut);
    match old.width().checked_sub(cut.width()) {
        Some(gain) => if is_unit {
            is_more(left_fits(gain, 12), cut.width())
        } else {
            Some(false)
        },
        None => None,
    }
}

impl System {
    /// No left side yet.
    pub fn empty(alloc: Global) -> System {
        System {
            lefts: Vec::new(alloc),
            places: Vec::new(alloc),
            states: 0,
            straight: Vec::new(alloc),
        }
    }

    /// Takes the left side of template `i` behind the others. False where its numbers have too many bits.
    fn add_left(
        &mut self,
        alloc: Global,
        linear: &Linear,
        pool: &Pool,
        i: usize,
        starts: &[Interval],
    ) -> Result<bool, Memory> {
        match left_of(alloc, linear, pool, i, &self.places, starts)? {
            Some(left) => {
                self.lefts.push(left)?;
                Ok(true)
            }
            None => Ok(false),
        }
    }

    /// Takes the left sides of a pool's templates, which hold the starts if some are given. False where numbers have
    /// too many bits.
    pub fn fill(
        &mut self,
        alloc: Global,
        linear: &Linear,
        pool: &Pool,
        starts: &[Interval],
    ) -> Result<bool, Memory> {
        put_places(&mut self.places, pool)?;
        for i in 0..pool.templates.len() {
            if !self.add_left(alloc, linear, pool, i, starts)? {
                return Ok(false);
            }
        }
        self.states = pool.templates.states;
        put_without_cycle(alloc, &self.lefts, &mut self.straight)?;
        Ok(true)
    }

    /// The guess for a template: its reach, and half of its room on both sides.
    fn guess(&self, pool: &Pool, i: usize) -> Option<Ends> {
        match (self.lefts.get(i), self.guessed(pool, i)) {
            (Some(left), Some(own)) => Some(left.with_start(own)),
            _ => None,
        }
    }

    /// Its reach, and half of its room on both sides.
    fn guessed(&self, pool: &Pool, i: usize) -> Option<Ends> {
        let (lo, hi) = pool.templates.reach(i);
        match (
            pool.scale.checked_sub(self.places_at(i)),
            pool.room(i).checked_add(1),
        ) {
            (Some(down), Some(room)) => Ends::of(
                lower_guess(lo, room >> 1, down),
                upper_guess(hi, room >> 1, down),
            ),
            _ => None,
        }
    }

    /// How many places the bound of template `i` has.
    fn places_at(&self, i: usize) -> i32 {
        self.places.get(i).copied().unwrap_or(0)
    }

    /// Puts the guesses for all templates. False where one has too many bits.
    fn guess_all(&self, pool: &Pool, bounds: &mut Vec<Ends>) -> Result<bool, Memory> {
        for i in 0..self.lefts.len() {
            match self.guess(pool, i) {
                Some(ends) => bounds.push(ends)?,
                None => return Ok(false),
            }
        }
        Ok(true)
    }

    /// The left side of template `i`.
    fn left(&self, i: usize, bounds: &[Ends]) -> Option<Ends> {
        match self.lefts.get(i) {
            Some(left) => left.at(bounds),
            None => None,
        }
    }

    /// Whether template `i` has a unit bound that moved; None where it got far too wide.
    fn moved(&self, i: usize, old: Ends, new: Ends, first: &[Ends]) -> Option<bool> {
        if i >= self.states {
            return Some(false);
        }
        match first.get(i) {
            Some(guess) => if new.width() >> 6 > guess.width() {
                None
            } else {
                has_moved(old, new)
            },
            None => None,
        }
    }

    /// Follows the left side of template `i`, likewise.
    fn follow_one(&self, i: usize, bounds: &mut [Ends], first: &[Ends]) -> Option<bool> {
        let new = self.left(i, bounds);
        match (new, bounds.get_mut(i)) {
            (Some(new), Some(slot)) => self.moved(i, replace(slot, new), new, first),
            _ => None,
        }
    }

    /// Follows the left sides once, last template first, likewise.
    fn follow(&self, bounds: &mut [Ends], first: &[Ends]) -> Option<bool> {
        let mut moved = Some(false);
        for i in (0..self.lefts.len()).rev() {
            if moved.is_some() {
                moved = either(self.follow_one(i, bounds, first), moved);
            }
        }
        moved
    }

    /// Follows them until no unit bound moves. False where one got far too wide.
    fn follow_all(&self, bounds: &mut [Ends], first: &[Ends]) -> bool {
        let mut moved = Some(true);
        for _turn in 0..256 {
            if moved.unwrap_or(false) {
                moved = self.follow(bounds, first);
            }
        }
        moved.is_some()
    }

    /// Raises the bound of template `i` to its left side. Whether it had to be.
    fn raise_one(&self, i: usize, bounds: &mut [Ends]) -> Option<bool> {
        let new = self.left(i, bounds);
        match (new, bounds.get_mut(i)) {
            (Some(new), Some(slot)) => Some(raise_to(slot, new)),
            _ => None,
        }
    }

    /// Raises all bounds to their left sides. Whether one had to be: else one step keeps all templates.
    fn raise(&self, bounds: &mut [Ends]) -> Option<bool> {
        let mut raised = Some(false);
        for i in (0..self.lefts.len()).rev() {
            if raised.is_some() {
                raised = either(self.raise_one(i, bounds), raised);
            }
        }
        raised
    }

    /// Raises them a few times. Whether one step keeps all templates then.
    fn is_raised(&self, bounds: &mut [Ends]) -> bool {
        let mut raised = Some(true);
        for _turn in 0..8 {
            if raised.unwrap_or(false) {
                raised = self.raise(bounds);
            }
        }
        !raised.unwrap_or(true)
    }

    /// Lowers the bound of template `i` to its left side. Whether it is a unit bound that gained.
    fn lower_one(&self, i: usize, bounds: &mut [Ends]) -> Option<bool> {
        let new = self.left(i, bounds);
        match (new, bounds.get_mut(i)) {
            (Some(new), Some(slot)) => lower_to(slot, new, i < self.states),
            _ => None,
        }
    }

    /// Lowers each bound to its left side. Whether a unit bound gained.
    fn lower(&self, bounds: &mut [Ends]) -> Option<bool> {
        let mut gained = Some(false);
        for i in (0..self.lefts.len()).rev() {
            if gained.is_some() {
                gained = either(self.lower_one(i, bounds), gained);
            }
        }
        gained
    }

    /// Lowers them until no unit bound gains. False where numbers have too many bits.
    fn tighten(&self, bounds: &mut [Ends]) -> bool {
        let mut gained = Some(true);
        for _turn in 0..48 {
            if gained.unwrap_or(false) {
                gained = self.lower(bounds);
            }
        }
        gained.is_some()
    }

    /// Lowers the bounds that are sums of drives alone to what they are, likewise.
    fn straighten(&self, bounds: &mut [Ends]) -> bool {
        let mut fits = true;
        for i in &self.straight {
            fits = fits && self.lower_one(*i, bounds).is_some();
        }
        fits
    }

    /// How wide bounds are, about; those that are sums of drives alone need no slack, and so have no width.
    fn widths(&self, alloc: Global, first: &[Ends]) -> Result<Vec<f64>, Memory> {
        let mut widths = Vec::new(alloc);
        for ends in first {
            widths.push(to_float(ends.width()))?;
        }
        for i in &self.straight {
            if let Some(slot) = widths.get_mut(*i) {
                *slot = 0.0;
            }
        }
        Ok(widths)
    }

    /// Takes these bounds, widened by `2^-k` of their widths, and raises them a few times. Whether a pass proves them.
    fn is_widened(
        &self,
        alloc: Global,
        first: &[Ends],
        k: i32,
        bounds: &mut Vec<Ends>,
    ) -> Result<bool, Memory> {
        match widened(alloc, first, k)? {
            Some(wider) => {
                *bounds = wider;
                Ok(self.is_raised(bounds))
            }
            None => Ok(false),
        }
    }

    /// Takes these bounds, widened by more and more, likewise.
    fn is_widened_enough(
        &self,
        alloc: Global,
        first: &[Ends],
        bounds: &mut Vec<Ends>,
    ) -> Result<bool, Memory> {
        for step in 0..8_i32 {
            let k = 12_i32.saturating_sub(step.saturating_mul(2));
            if self.is_widened(alloc, first, k, bounds)? {
                return Ok(true);
            }
        }
        Ok(false)
    }

    /// Takes the bounds as they are, and then widened by a little, and by more where that isn't enough, until a pass
    /// proves them. Whether one does.
    fn prove(&self, alloc: Global, bounds: &mut Vec<Ends>) -> Result<bool, Memory> {
        let first = Vec::from_slice(alloc, bounds)?;
        if self.is_raised(bounds) {
            Ok(true)
        } else {
            self.is_widened_enough(alloc, &first, bounds)
        }
    }

    /// The bounds at which each is its left side, about, from middles and half widths on. False where one leaves its
    /// bits.
    fn put_fixed(&self, bounds: &mut [Ends], middles: &[f64], halves: &[f64]) -> bool {
        let mut fits = true;
        for i in 0..self.lefts.len() {
            let ends = ends_about(entry_of(middles, i), entry_of(halves, i));
            fits = fits && self.put_at(bounds, i, ends);
        }
        fits
    }

    /// Puts a bound with its start, if it is there. Whether it is.
    fn put_at(&self, bounds: &mut [Ends], i: usize, ends: Option<Ends>) -> bool {
        match (self.lefts.get(i), bounds.get_mut(i), ends) {
            (Some(left), Some(slot), Some(ends)) => {
                *slot = left.with_start(ends);
                true
            }
            _ => false,
        }
    }

    /// Takes for guesses the bounds at which each is its left side, about, if there are some.
    fn fix(&self, alloc: Global, bounds: &mut Vec<Ends>) -> Result<(), Memory> {
        let widths = self.widths(alloc, bounds)?;
        match fixed_point(alloc, &self.lefts, &widths)? {
            Some((middles, halves)) => self.fix_at(alloc, bounds, &middles, &halves),
            None => Ok(()),
        }
    }

    /// Takes those with these middles and half widths, if none leaves its bits.
    fn fix_at(
        &self,
        alloc: Global,
        bounds: &mut Vec<Ends>,
        middles: &[f64],
        halves: &[f64],
    ) -> Result<(), Memory> {
        let mut fixed = Vec::from_slice(alloc, bounds)?;
        if self.put_fixed(&mut fixed, middles, halves) {
            *bounds = fixed;
        }
        Ok(())
    }

    /// Takes bounds on from guesses, which are widened where that is too little, until one step keeps them. Whether
    /// some are found.
    fn solve_from(&self, alloc: Global, bounds: &mut Vec<Ends>) -> Result<bool, Memory> {
        let first = Vec::from_slice(alloc, bounds)?;
        self.fix(alloc, bounds)?;
        Ok(
            self.follow_all(bounds, &first)
                && self.prove(alloc, bounds)?
                && self.tighten(bounds)
                && self.straighten(bounds),
        )
    }

    /// Puts bounds that one step keeps. Whether some are found.
    pub fn solve(
        &self,
        alloc: Global,
        pool: &Pool,
        bounds: &mut Vec<Ends>,
    ) -> Result<bool, Memory> {
        if self.guess_all(pool, bounds)? {
            self.solve_from(alloc, bounds)
        } else {
            Ok(false)
        }
    }

    /// A bound as an interval.
    pub fn interval(&self, i: usize, ends: Ends) -> Interval {
        let places = self.places_at(i).unsigned_abs();
        Interval {
            lo: lowest(ends.lo, places),
            hi: lowest(ends.hi, places),
        }
    }

    /// How far a bound reaches, as reaches are counted.
    pub fn reach(&self, pool: &Pool, i: usize, ends: Ends) -> Option<(i128, i128)> {
        match self.places_at(i).checked_sub(pool.scale) {
            Some(up) => reach_of(ends, up),
            None => None,
        }
    }
}
