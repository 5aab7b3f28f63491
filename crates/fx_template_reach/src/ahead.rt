//! Looking ahead: a template, its images under the linear part, and how far each reaches.
//!
//! A template of the states becomes its image one step later, and what drives it is added. The sum of all later drives,
//! and what is left of the start at each time with the drives up to then, is the template's reach, the least bound that
//! any certificate could have. It is known before a template is kept, so that what a closing of a chain costs is known
//! too.

use crate::linear::Linear;
use crate::templates::Templates;
use crate::whole::{both, difference, put, quotient, sum, whole_at};
use fx_num::Memory;
use std::alloc::Global;

/// After how many steps it is looked for the first time whether the drives end.
const FIRST: usize = 64;

/// How many times the steps are doubled at most.
const DOUBLINGS: u32 = 8;

/// A template and its images, with the reach of each.
#[derive(Drop)]
pub struct Ahead {
    /// The template and its images.
    pub templates: Templates,
    /// Where each of them starts; none where nothing has to reach that.
    starts_lo: Vec<i128>,
    starts_hi: Vec<i128>,
}

/// How wide the two halves of what was looked at come out, and both together.
#[derive(Clone, Copy)]
struct Halves {
    first: i128,
    both: i128,
}

impl Ahead {
    /// Puts where template `t` starts behind the others. False where numbers get too long.
    fn push_start(&mut self, linear: &Linear, t: usize) -> Result<bool, Memory> {
        if linear.starts().is_empty() {
            return Ok(true);
        }
        match linear.start_of(self.templates.template(t)) {
            Some(start) => {
                self.starts_lo.push(start.lo)?;
                self.starts_hi.push(start.hi)?;
                Ok(true)
            }
            None => Ok(false),
        }
    }

    /// What template `t` and those before are driven by.
    fn sum_behind(&self, linear: &Linear, t: usize) -> Option<(i128, i128)> {
        let (lo, hi) = self.templates.reach(t);
        match linear.drive(self.templates.template(t)) {
            Some(drive) => both(lo.checked_add(drive.lo), hi.checked_add(drive.hi)),
            None => None,
        }
    }

    /// One step more. False where numbers get too long.
    fn push_step(&mut self, linear: &Linear, t: usize) -> Result<bool, Memory> {
        match self.sum_behind(linear, t) {
            Some(sum) => {
                self.templates.push_reach(sum)?;
                let from = t.saturating_mul(self.templates.states);
                linear.push_image(&mut self.templates.entries, from)
            }
            None => Ok(false),
        }
    }

    /// Steps up to this one, likewise.
    fn push_steps(&mut self, linear: &Linear, end: usize) -> Result<bool, Memory> {
        let from = self.templates.len().saturating_sub(1);
        for t in from..end {
            if !(self.push_start(linear, t)? && self.push_step(linear, t)?) {
                return Ok(false);
            }
        }
        Ok(true)
    }

    /// How much the drives so far come to, and those of the first half.
    fn driven(&self, end: usize) -> Halves {
        Halves {
            first: self.templates.width(end / 2),
            both: self.templates.width(end),
        }
    }

    /// How far the ends move by drives and starts in the first half, and in both.
    fn moved(&self, end: usize, driven: Halves) -> Halves {
        let first = self.moved_between(0, end / 2).max(driven.both);
        let second = self.moved_between(end / 2, end);
        Halves {
            first,
            both: first.saturating_add(second),
        }
    }

    /// How far the ends move between two times.
    fn moved_between(&self, from: usize, to: usize) -> i128 {
        let lo = moved(&self.templates.lo, &self.starts_lo, from, to);
        let hi = moved(&self.templates.hi, &self.starts_hi, from, to);
        lo.max(hi)
    }

    /// Whether the template is clearly less than the first: what drives it may come late, through many states.
    fn has_faded(&self, end: usize) -> bool {
        total_size(self.templates.template(end)) <= total_size(self.templates.template(0)) >> 2
    }

    /// Turns the sums once nothing more comes, or no more steps are looked at. None where it isn't so yet, and false
    /// where drives or starts don't end.
    fn ended(&mut self, end: usize, is_last: bool) -> Option<bool> {
        let driven = self.driven(end);
        let moved = self.moved(end, driven);
        if is_last || (driven.are_over() && moved.are_over() && self.has_faded(end)) {
            Some(driven.shrink() && moved.shrink() && self.turn(end, driven))
        } else {
            None
        }
    }

    /// Looks ahead so far, and turns the sums as above.
    fn look_up_to(
        &mut self,
        linear: &Linear,
        end: usize,
        is_last: bool,
    ) -> Result<Option<bool>, Memory> {
        if self.push_steps(linear, end)? {
            Ok(self.ended(end, is_last))
        } else {
            Ok(Some(false))
        }
    }

    /// Looks ahead until nothing more comes. Whether that ends.
    fn look(&mut self, linear: &Linear) -> Result<bool, Memory> {
        let mut end = FIRST;
        for turn in 0..DOUBLINGS.saturating_add(1) {
            match self.look_up_to(linear, end, turn == DOUBLINGS)? {
                Some(stands) => return Ok(stands),
                None => end = end.saturating_mul(2),
            }
        }
        Ok(false)
    }

    /// Turns the sums of the drives before each template into how far it reaches: what its start is, and what drives it
    /// and then its image, which reaches so far itself. False where numbers get too long.
    fn turn(&mut self, end: usize, driven: Halves) -> bool {
        let lo = last_of(&self.templates.lo, &self.starts_lo, end, driven, false);
        let hi = last_of(&self.templates.hi, &self.starts_hi, end, driven, true);
        turn_ends(&mut self.templates.lo, &self.starts_lo, lo, false)
            && turn_ends(&mut self.templates.hi, &self.starts_hi, hi, true)
    }
}

/// How great all entries are together.
fn total_size(template: &[i128]) -> u128 {
    let mut total: u128 = 0;
    for entry in template {
        total = total.saturating_add(entry.unsigned_abs());
    }
    total
}

/// The end that lies further out.
fn outer(a: i128, b: i128, is_upper: bool) -> i128 {
    if is_upper { a.max(b) } else { a.min(b) }
}

/// The end that lies further out, if both are there.
fn outer_of(a: Option<i128>, b: Option<i128>, is_upper: bool) -> Option<i128> {
    match (a, b) {
        (Some(a), Some(b)) => Some(outer(a, b, is_upper)),
        _ => None,
    }
}

/// The outermost of the ends between two times, if there are some.
fn outermost(ends: &[i128], from: usize, to: usize, is_upper: bool) -> Option<i128> {
    let mut found = None;
    for end in ends.get(from..to).unwrap_or(&[]) {
        found = match found {
            Some(other) => Some(outer(*end, other, is_upper)),
            None => Some(*end),
        };
    }
    found
}

/// How far sums and starts come apart between two times.
fn moved(sums: &[i128], starts: &[i128], from: usize, to: usize) -> i128 {
    let mut least = i128::MAX;
    let mut most = i128::MIN;
    for t in from..to {
        let end = whole_at(sums, t).saturating_add(whole_at(starts, t));
        least = least.min(end);
        most = most.max(end);
    }
    most.saturating_sub(least)
}

/// Where the last template comes to lie with all that drove it: by what goes on to drive it, and by the later starts.
fn last_of(
    sums: &[i128],
    starts: &[i128],
    end: usize,
    driven: Halves,
    is_upper: bool,
) -> Option<i128> {
    let all = total(sums, end, driven);
    match outermost(starts, end / 2, end, is_upper) {
        Some(start) => outer_of(all, whole_at(sums, end).checked_add(start), is_upper),
        None => all,
    }
}

/// The end of a template, by that of its image and where it starts, if that is to be reached.
fn end_at(image: Option<i128>, sum: i128, start: Option<&i128>, is_upper: bool) -> Option<i128> {
    match start {
        Some(start) => outer_of(image, sum.checked_add(*start), is_upper),
        None => image,
    }
}

/// Puts how far an end lies from a sum in the place of that. False where 128 bits don't hold it.
fn put_distance(sums: &mut Vec<i128>, t: usize, end: Option<i128>) -> bool {
    match difference(end, whole_at(sums, t)) {
        Some(distance) => {
            put(sums, t, distance);
            true
        }
        None => false,
    }
}

/// Turns the ends on one side, from the last on. False where numbers get too long.
fn turn_ends(sums: &mut Vec<i128>, starts: &[i128], last: Option<i128>, is_upper: bool) -> bool {
    let mut end = last;
    let mut fits = true;
    for t in (0..sums.len()).rev() {
        end = end_at(end, whole_at(sums, t), starts.get(t), is_upper);
        fits = fits && put_distance(sums, t, end);
    }
    fits
}

/// What the second half leaves of the first, once it shrinks as before.
fn rest_of(halves: Halves) -> Option<i128> {
    difference(halves.first.checked_mul(2), halves.both)
}

/// The drives of the first half, and of the second and what goes on so.
fn with_rest(first: i128, second: i128, halves: Halves, rest: i128) -> Option<i128> {
    match second.checked_mul(halves.first) {
        Some(product) => sum(Some(first), quotient(product, rest)),
        None => None,
    }
}

/// All drives, where those that weren't looked at shrink as the second half did.
fn total(sums: &[i128], end: usize, halves: Halves) -> Option<i128> {
    let all = whole_at(sums, end);
    let first = whole_at(sums, end / 2);
    match both(all.checked_sub(first), rest_of(halves)) {
        Some((second, rest)) => if rest <= 0 {
            Some(all)
        } else {
            with_rest(first, second, halves, rest)
        },
        None => None,
    }
}

impl Halves {
    /// Whether the second half adds next to nothing.
    fn are_over(self) -> bool {
        let second = self.both.saturating_sub(self.first);
        second <= self.both >> 20
    }

    /// Whether the second half is clearly less than the first.
    fn shrink(self) -> bool {
        let second = self.both.saturating_sub(self.first);
        second.saturating_mul(16) <= self.first.saturating_mul(15)
    }
}

/// Looks ahead from a template, until its drives end, and what is left of the starts. None where they don't.
pub fn look_ahead(
    alloc: Global,
    linear: &Linear,
    template: &[i128],
) -> Result<Option<Ahead>, Memory> {
    let mut ahead = Ahead {
        templates: Templates {
            states: linear.states,
            entries: Vec::from_slice(alloc, template)?,
            lo: vec![in alloc; 0_i128; 1]?,
            hi: vec![in alloc; 0_i128; 1]?,
        },
        starts_lo: Vec::new(alloc),
        starts_hi: Vec::new(alloc),
    };
    if ahead.look(linear)? {
        Ok(Some(ahead))
    } else {
        Ok(None)
    }
}
