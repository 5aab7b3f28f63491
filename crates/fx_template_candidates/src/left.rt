//! What a template is after one step, of the bounds of all templates.

use crate::ends::Ends;
use crate::image::{drive_of, left_coef, start_of};
use fx_num::{Dyadic, Interval, Memory, ceil_shift, dadd, dle, floor_shift, left_fits};
use fx_template_reach::{Linear, Pool, floor_at, power_of_two, quotient, size_of, to_float};
use std::alloc::Global;

/// How many binary places a template's share in itself has.
const OWN_PLACES: u32 = 40;

/// The bound of a template, a number of times.
#[derive(Clone, Copy)]
struct Term {
    template: usize,
    times: i128,
}

impl Term {
    /// A sum with the term, of the bounds of all templates.
    fn added_to(self, sum: Option<Ends>, bounds: &[Ends]) -> Option<Ends> {
        match (sum, bounds.get(self.template)) {
            (Some(sum), Some(bound)) => sum.plus(self.times, *bound),
            _ => None,
        }
    }
}

/// What a template is after one step.
#[derive(Drop)]
pub struct Left {
    terms: Vec<Term>,
    beside: Beside,
}

/// What a template is after one step, beside the terms.
#[derive(Clone, Copy)]
struct Beside {
    drive: Ends,
    /// The terms and the drive have so many places more than the bound.
    places: u32,
    /// The template's share in itself, from below and from above.
    own: Ends,
    /// Where the template is at the start, if its bound has to hold that.
    start: Option<Ends>,
}

/// A term before it is whole: a template and how often it is taken.
#[derive(Clone, Copy)]
struct Taken {
    template: usize,
    times: Dyadic,
}

/// Puts the shares of template `i` behind other terms.
fn put_shares(terms: &mut Vec<Taken>, pool: &Pool, i: usize) -> Result<(), Memory> {
    for share in pool.shares(i) {
        terms.push(Taken {
            template: share.template as usize,
            times: share.times,
        })?;
    }
    Ok(())
}

/// Puts what the shares leave behind them. False where its numbers have too many bits.
fn put_left(
    terms: &mut Vec<Taken>,
    linear: &Linear,
    pool: &Pool,
    i: usize,
) -> Result<bool, Memory> {
    for j in 0..linear.states {
        match left_coef(linear, pool, i, j) {
            Some(coef) => if coef.m != 0 {
                terms.push(Taken {
                    template: j,
                    times: coef,
                })?;
            },
            None => return Ok(false),
        }
    }
    Ok(true)
}

/// With the term, if it is of template `i`.
fn plus_own(total: Option<Dyadic>, term: Taken, i: usize) -> Option<Dyadic> {
    match total {
        Some(own) => if term.template == i {
            dadd(own, term.times)
        } else {
            total
        },
        None => None,
    }
}

/// A share of a template in itself, if it is above 0 and below 1, and else 0.
fn below_one(own: Dyadic) -> Dyadic {
    let most = Dyadic {
        m: (1 << 20) - 1,
        e: 20,
    };
    if own.m > 0 && dle(own, most) {
        own
    } else {
        Dyadic::zero()
    }
}

/// How often template `i` is taken of itself, if that is below 1, and else 0.
fn own_of(terms: &[Taken], i: usize) -> Dyadic {
    let mut total = Some(Dyadic::zero());
    for term in terms {
        total = plus_own(total, *term, i);
    }
    match total {
        Some(own) => below_one(own),
        None => Dyadic::zero(),
    }
}

/// How many places a term comes to.
fn places_of(term: Taken, places: &[i32]) -> Option<i32> {
    match (i32::try_from(term.times.e), places.get(term.template)) {
        (Ok(e), Some(own)) => e.checked_add(*own),
        _ => None,
    }
}

/// The greater of two numbers, if both are there.
fn greater(a: Option<i32>, b: Option<i32>) -> Option<i32> {
    match (a, b) {
        (Some(a), Some(b)) => Some(a.max(b)),
        _ => None,
    }
}

/// How often a term's bound is taken, as a whole number.
fn whole_times(term: Taken, places: &[i32], most: i32) -> Option<i128> {
    match places.get(term.template) {
        Some(own) => match most.checked_sub(*own) {
            Some(more) => floor_at(term.times, more),
            None => None,
        },
        None => None,
    }
}

/// Puts a term as a whole number with so many places. False where it has too many bits.
fn put_whole(
    wholes: &mut Vec<Term>,
    term: Taken,
    places: &[i32],
    most: i32,
) -> Result<bool, Memory> {
    let template = term.template;
    match whole_times(term, places, most) {
        Some(times) => {
            wholes.push(Term { template, times })?;
            Ok(true)
        }
        None => Ok(false),
    }
}

/// Template `i` of a pool for a step, of which the left side is made.
#[derive(Clone, Copy)]
struct Subject<'a> {
    linear: &'a Linear,
    pool: &'a Pool,
    i: usize,
    /// How many places the bounds of all templates have.
    places: &'a [i32],
    starts: &'a [Interval],
}

impl Subject<'_> {
    /// How many places the template's bound has.
    fn own_places(self) -> i32 {
        self.places.get(self.i).copied().unwrap_or(0)
    }

    /// Whether a term is the template's share in itself, which stands apart.
    fn is_apart(self, term: Taken, own: Dyadic) -> bool {
        term.template == self.i && own.m != 0
    }

    /// The most places that a term comes to.
    fn most_places(self, terms: &[Taken], own: Dyadic) -> Option<i32> {
        let mut most = self.own_places().checked_add(8);
        for term in terms {
            if !self.is_apart(*term, own) {
                most = greater(most, places_of(*term, self.places));
            }
        }
        most
    }

    /// Puts the terms as whole numbers. False where these have too many bits.
    fn put_wholes(
        self,
        wholes: &mut Vec<Term>,
        terms: &[Taken],
        own: Dyadic,
        most: i32,
    ) -> Result<bool, Memory> {
        for term in terms {
            if !self.is_apart(*term, own) {
                if !put_whole(wholes, *term, self.places, most)? {
                    return Ok(false);
                }
            }
        }
        Ok(true)
    }

    /// Where the template is at the start, if its bound has to hold that. None where its numbers have too many bits.
    fn start(self) -> Option<Option<Ends>> {
        if self.starts.is_empty() {
            return Some(None);
        }
        match start_of(self.pool, self.i, self.starts, self.own_places()) {
            Some(start) => Some(Some(start)),
            None => None,
        }
    }

    /// What stands beside the terms where this drives the template.
    fn beside_of(self, drive: Interval, own: Dyadic, most: i32) -> Option<Beside> {
        let own = Ends::around(Interval { lo: own, hi: own }, OWN_PLACES as i32);
        match (Ends::around(drive, most), own, self.start()) {
            (Some(drive), Some(own), Some(start)) => Some(Beside {
                drive,
                places: most.saturating_sub(self.own_places()).unsigned_abs(),
                own,
                start,
            }),
            _ => None,
        }
    }

    /// What stands beside terms with so many places, where the template is taken so often of itself, apart from them.
    fn beside(self, own: Dyadic, most: i32) -> Option<Beside> {
        match drive_of(self.linear, self.pool, self.i) {
            Some(drive) => if self.fits_beside(drive, most) {
                self.beside_of(drive, own, most)
            } else {
                None
            },
            None => None,
        }
    }

    /// The left side with these terms.
    fn left_with(
        self,
        alloc: Global,
        terms: &[Taken],
        own: Dyadic,
        most: i32,
        beside: Beside,
    ) -> Result<Option<Left>, Memory> {
        let mut wholes = Vec::new(alloc);
        if self.put_wholes(&mut wholes, terms, own, most)? {
            Ok(Some(Left {
                terms: wholes,
                beside,
            }))
        } else {
            Ok(None)
        }
    }

    /// The left side, likewise.
    fn left_in(
        self,
        alloc: Global,
        terms: &[Taken],
        own: Dyadic,
        most: i32,
    ) -> Result<Option<Left>, Memory> {
        match self.beside(own, most) {
            Some(beside) => self.left_with(alloc, terms, own, most, beside),
            None => Ok(None),
        }
    }

    /// The left side of these terms.
    fn left_by(self, alloc: Global, terms: &[Taken]) -> Result<Option<Left>, Memory> {
        let own = own_of(terms, self.i);
        match self.most_places(terms, own) {
            Some(most) => self.left_in(alloc, terms, own, most),
            None => Ok(None),
        }
    }

    /// Puts all terms: the template's shares, and what they leave on the unit templates. False where its numbers have
    /// too many bits.
    fn put_terms(self, terms: &mut Vec<Taken>) -> Result<bool, Memory> {
        put_shares(terms, self.pool, self.i)?;
        put_left(terms, self.linear, self.pool, self.i)
    }

    /// The left side.
    fn left(self, alloc: Global) -> Result<Option<Left>, Memory> {
        let mut terms = Vec::new(alloc);
        if self.put_terms(&mut terms)? {
            self.left_by(alloc, &terms)
        } else {
            Ok(None)
        }
    }
}

/// The left side of template `i`.
pub fn left_of(
    alloc: Global,
    linear: &Linear,
    pool: &Pool,
    i: usize,
    places: &[i32],
    starts: &[Interval],
) -> Result<Option<Left>, Memory> {
    let subject = Subject {
        linear,
        pool,
        i,
        places,
        starts,
    };
    subject.left(alloc)
}

/// By how many places terms may be finer than the bound, so that a checker's exact sums have room in 128 bits; by more
/// where the bound has fewer bits.
const FINER_PLACES: i32 = 91;

impl Subject<'_> {
    /// Whether what drives the template, and terms with so many places, are little enough finer than its bound.
    fn fits_beside(self, drive: Interval, most: i32) -> bool {
        let finest = self
            .own_places()
            .saturating_add(FINER_PLACES)
            .saturating_add(i32::from(self.linear.spared));
        let end = finest.max(0).unsigned_abs();
        most <= finest && drive.lo.e <= end && drive.hi.e <= end
    }
}

/// An end over what the template's share in itself leaves of 1, away from zero or toward it as is right for a lower
/// end.
fn lower_over(lo: i128, own: Ends) -> Option<i128> {
    let share = if lo < 0 { own.hi } else { own.lo };
    match (
        left_fits(lo, OWN_PLACES),
        (1_i128 << OWN_PLACES).checked_sub(share),
    ) {
        (Some(top), Some(rest)) => quotient(top, rest),
        _ => None,
    }
}

/// A number with the other sign, if it is there.
fn negative(x: Option<i128>) -> Option<i128> {
    match x {
        Some(x) => x.checked_neg(),
        None => None,
    }
}

/// An upper end, likewise.
fn upper_over(hi: i128, own: Ends) -> Option<i128> {
    match hi.checked_neg() {
        Some(lo) => negative(lower_over(lo, own)),
        None => None,
    }
}

impl Left {
    /// Whether a template takes nothing of itself, and of others only those that are marked.
    pub fn takes_only(&self, marks: &[bool]) -> bool {
        for term in &self.terms {
            if !marks.get(term.template).copied().unwrap_or(false) {
                return false;
            }
        }
        self.beside.own.hi == 0
    }

    /// What a unit of the sums comes to in the bound, in floating point.
    fn unit(&self) -> f64 {
        let places = i32::try_from(self.beside.places).unwrap_or(0);
        let own = to_float(self.beside.own.hi) * power_of_two(-(OWN_PLACES as i32));
        power_of_two(places.saturating_neg()) / (1.0 - own)
    }

    /// Takes from a row how often each template's bound is taken, with its sign or as a size.
    pub fn put_weights(&self, row: &mut [f64], is_signed: bool) {
        let unit = self.unit();
        for term in &self.terms {
            if let Some(slot) = row.get_mut(term.template) {
                let weight = to_float(term.times) * unit;
                let weight = if is_signed { weight } else { size_of(weight) };
                *slot = *slot - weight;
            }
        }
    }

    /// The middle of what drives the template, or how far it goes to each side of that.
    pub fn driven(&self, is_middle: bool) -> f64 {
        let lo = to_float(self.beside.drive.lo);
        let hi = to_float(self.beside.drive.hi);
        let twice = if is_middle { hi + lo } else { hi - lo };
        twice * 0.5 * self.unit()
    }

    /// Where the template lies after one step, with the start if there is one.
    pub fn at(&self, bounds: &[Ends]) -> Option<Ends> {
        let mut sum = Some(self.beside.drive);
        for term in &self.terms {
            sum = term.added_to(sum, bounds);
        }
        match sum {
            Some(sum) => self.beside.with_own_share(sum),
            None => None,
        }
    }

    /// Ends that hold the start, too.
    pub fn with_start(&self, ends: Ends) -> Ends {
        self.beside.with_start(ends)
    }
}

impl Beside {
    /// A sum in the places of the bound, with the template's share in itself, and the start.
    fn with_own_share(self, sum: Ends) -> Option<Ends> {
        match self.over_own(
            floor_shift(sum.lo, self.places),
            ceil_shift(sum.hi, self.places),
        ) {
            Some(ends) => Some(self.with_start(ends)),
            None => None,
        }
    }

    /// With the template's share in itself.
    fn over_own(self, lo: i128, hi: i128) -> Option<Ends> {
        if self.own.hi > 0 {
            Ends::of(lower_over(lo, self.own), upper_over(hi, self.own))
        } else {
            Some(Ends { lo, hi })
        }
    }

    /// Ends that hold the start, too.
    fn with_start(self, ends: Ends) -> Ends {
        match self.start {
            Some(start) => ends.and(start),
            None => ends,
        }
    }
}
