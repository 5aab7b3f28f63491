//! Tries: the first with chains alone, then the ladder with templates of poles, from the first step that finds its
//! place on, and then chains of rising room as a last resort.
//!
//! Each builds templates and solves them for bounds; what comes close to the reaches is taken, else the best.

use crate::build::build;
use crate::chains::widths_of;
use crate::ends::Ends;
use crate::ladder::{Building, place};
use crate::rungs::{RUNGS, Rung};
use crate::system::System;
use fx_num::{Interval, Memory, left_fits};
use fx_simplex::{Budget, ScaledTemplates, exchange};
use fx_template_reach::{Chain, Costs, Linear, Pole, Pool, pole_templates, poles_of, to_float};
use std::alloc::Global;

/// A try: the room as a power of two below what a chain begins with, whether the outputs have chains, and whether
/// chains that are too long have templates at growing times.
#[derive(Clone, Copy)]
struct Try {
    shift: i32,
    with_outputs: bool,
    is_growing: bool,
}

/// The tries, the best first.
static TRIES: [Try; 9] = [
    Try {
        shift: 8,
        with_outputs: true,
        is_growing: false,
    },
    Try {
        shift: 5,
        with_outputs: true,
        is_growing: false,
    },
    Try {
        shift: 3,
        with_outputs: true,
        is_growing: false,
    },
    Try {
        shift: 3,
        with_outputs: true,
        is_growing: true,
    },
    Try {
        shift: 3,
        with_outputs: false,
        is_growing: false,
    },
    Try {
        shift: 3,
        with_outputs: false,
        is_growing: true,
    },
    Try {
        shift: 1,
        with_outputs: true,
        is_growing: true,
    },
    Try {
        shift: 0,
        with_outputs: false,
        is_growing: false,
    },
    Try {
        shift: -1,
        with_outputs: false,
        is_growing: true,
    },
];

/// How many binary places a quality has: how much wider than its reach a bound came out.
const QUALITY_PLACES: u32 = 20;

/// Templates with their bounds, and how good they are: the less, the better.
#[derive(Drop)]
pub struct Solved {
    pub pool: Pool,
    pub system: System,
    pub bounds: Vec<Ends>,
    quality: i128,
}

/// What templates are looked for.
#[derive(Clone, Copy)]
pub struct Goal<'a> {
    pub alloc: Global,
    pub linear: &'a Linear,
    pub chains: &'a [Chain],
    /// Where the states start; none where no bound has to hold that.
    pub starts: &'a [Interval],
}

/// A width over a reach.
fn ratio(width: i128, reach: i128) -> i128 {
    let top = left_fits(width, QUALITY_PLACES).unwrap_or(i128::MAX);
    top.checked_div(reach.max(1)).unwrap_or(i128::MAX)
}

/// How good the bounds of the unit templates are.
fn unit_quality(pool: &Pool, chains: &[Chain]) -> i128 {
    let mut worst = 0;
    for i in 0..chains.len() {
        if chains[i].state.is_some() {
            let reach = chains[i].ahead.templates.width(0);
            worst = ratio(pool.templates.width(i), reach).max(worst);
        }
    }
    worst
}

/// How good the bounds of all are, of outputs by an exchange.
fn quality(
    alloc: Global,
    pool: &Pool,
    chains: &[Chain],
    budget: &mut Budget,
) -> Result<i128, Memory> {
    let units = unit_quality(pool, chains);
    if chains.len() == pool.templates.states {
        Ok(units)
    } else {
        let scaled = ScaledTemplates::of(alloc, pool)?;
        output_quality(alloc, &scaled, chains, units, budget)
    }
}

/// How good the bound of what a chain begins with is, by an exchange.
fn exchanged_quality(
    alloc: Global,
    scaled: &ScaledTemplates<'_>,
    chain: &Chain,
    budget: &mut Budget,
) -> Result<i128, Memory> {
    let found = exchange(alloc, scaled, chain.ahead.templates.template(0), budget)?;
    Ok(ratio(found.cost, chain.ahead.templates.width(0)))
}

/// How good the bounds of outputs are, where none of the others is worse than this.
fn output_quality(
    alloc: Global,
    scaled: &ScaledTemplates<'_>,
    chains: &[Chain],
    units: i128,
    budget: &mut Budget,
) -> Result<i128, Memory> {
    let mut worst = units;
    for chain in chains {
        if chain.state.is_none() {
            worst = exchanged_quality(alloc, scaled, chain, budget)?.max(worst);
        }
    }
    Ok(worst)
}

/// Puts what came out in the place of a guess. False where it has too many bits.
fn put_bound(pool: &mut Pool, system: &System, i: usize, ends: Ends) -> bool {
    match system.reach(pool, i, ends) {
        Some(reach) => {
            pool.put_reach(i, reach);
            true
        }
        None => false,
    }
}

/// Puts what came out in the place of the guesses, likewise.
pub fn put_bounds(pool: &mut Pool, system: &System, bounds: &[Ends]) -> bool {
    let mut fits = true;
    for i in 0..bounds.len() {
        fits = fits && put_bound(pool, system, i, bounds[i]);
    }
    fits
}

impl Solved {
    /// Templates without bounds.
    fn of(alloc: Global, pool: Pool) -> Solved {
        Solved {
            pool,
            system: System::empty(alloc),
            bounds: Vec::new(alloc),
            quality: i128::MAX,
        }
    }

    /// Finds bounds. Whether they stand.
    fn find_bounds(&mut self, goal: Goal<'_>) -> Result<bool, Memory> {
        Ok(
            self.system
                .fill(goal.alloc, goal.linear, &self.pool, goal.starts)?
                && self.system.solve(goal.alloc, &self.pool, &mut self.bounds)?
                && put_bounds(&mut self.pool, &self.system, &self.bounds),
        )
    }

    /// Finds bounds, and how good they are. Whether they stand.
    fn solve(&mut self, goal: Goal<'_>, budget: &mut Budget) -> Result<bool, Memory> {
        let stand = self.find_bounds(goal)?;
        if stand {
            self.quality = quality(goal.alloc, &self.pool, goal.chains, budget)?;
        }
        Ok(stand)
    }
}

impl<'a> Goal<'a> {
    /// With the chains that a try uses: the outputs' stand last.
    fn with(self, one: Try) -> Goal<'a> {
        let used = if one.with_outputs {
            self.chains
        } else {
            self.chains.get(..self.linear.states).unwrap_or(self.chains)
        };
        Goal {
            chains: used,
            ..self
        }
    }

    /// A pool with its bounds, where they stand.
    fn solved(self, pool: Pool, budget: &mut Budget) -> Result<Option<Solved>, Memory> {
        let mut solved = Solved::of(self.alloc, pool);
        if solved.solve(self, budget)? {
            Ok(Some(solved))
        } else {
            Ok(None)
        }
    }

    /// The templates of a try.
    fn built(self, one: Try, budget: &mut Budget) -> Result<Option<Pool>, Memory> {
        let costs = Costs::of(self.alloc, self.chains, one.shift)?;
        build(
            self.alloc,
            self.chains,
            self.linear,
            &costs,
            one.is_growing,
            budget,
        )
    }

    /// One try.
    fn solve_try(self, one: Try, budget: &mut Budget) -> Result<Option<Solved>, Memory> {
        match self.built(one, budget)? {
            Some(pool) => self.solved(pool, budget),
            None => Ok(None),
        }
    }
}

/// Whether a try came close enough to its reaches to end the search.
fn is_enough(solved: &Solved, one: Try) -> bool {
    let unit = 1_i128 << QUALITY_PLACES;
    one.shift >= 3
        && solved.quality <= unit.saturating_add(unit >> one.shift.unsigned_abs().min(20))
}

/// Takes a pool with its bounds in the place of one that isn't better.
fn put_better(best: &mut Option<Solved>, solved: Solved) {
    if is_better(best, &solved) {
        *best = Some(solved);
    } else {
        drop(solved);
    }
}

/// Whether a pool with its bounds is better than another, if there is one.
fn is_better(best: &Option<Solved>, solved: &Solved) -> bool {
    match best {
        Some(best) => solved.quality < best.quality,
        None => true,
    }
}

/// The greatest of these widths.
fn widest(widths: &[i128]) -> i128 {
    let mut most = 1;
    for width in widths {
        most = most.max(*width);
    }
    most
}

/// A ladder: what its steps are built of.
#[derive(Clone, Copy)]
struct Ladder<'a> {
    alloc: Global,
    linear: &'a Linear,
    chains: &'a [Chain],
    starts: &'a [Interval],
    poles: &'a [Pole],
    widest: i128,
    /// How many times chains go on from one template to the next.
    stride: usize,
}

impl<'a> Ladder<'a> {
    /// What templates are looked for.
    fn goal(self) -> Goal<'a> {
        Goal {
            alloc: self.alloc,
            linear: self.linear,
            chains: self.chains,
            starts: self.starts,
        }
    }

    /// The templates of a step without the ends, if they find their place.
    fn placed(self, rung: Rung, budget: &mut Budget) -> Result<Option<Building<'a>>, Memory> {
        let part = to_float(rung.part) / 100.0;
        match pole_templates(
            self.alloc,
            self.linear.states,
            self.poles,
            part,
            self.widest,
        )? {
            Some(planes) => place(
                self.alloc,
                self.chains,
                self.linear,
                rung,
                self.stride,
                &planes,
                budget,
            ),
            None => Ok(None),
        }
    }

    /// Whether a step finds its place.
    fn is_placed(self, step: usize, budget: &mut Budget) -> Result<bool, Memory> {
        match RUNGS.get(step) {
            Some(rung) => Ok(self.placed(*rung, budget)?.is_some()),
            None => Ok(true),
        }
    }

    /// The first step that finds its place, between those that don't and those that do.
    fn first(self, budget: &mut Budget) -> Result<usize, Memory> {
        let mut low: usize = 0;
        let mut high = RUNGS.len();
        for _turn in 0..5 {
            if low < high {
                let middle = low.saturating_add(high) / 2;
                if self.is_placed(middle, budget)? {
                    high = middle;
                } else {
                    low = middle.saturating_add(1);
                }
            }
        }
        Ok(high)
    }

    /// A step with its bounds, if it finds its place and they stand.
    fn stood(self, rung: Rung, budget: &mut Budget) -> Result<Option<Solved>, Memory> {
        match self.placed(rung, budget)? {
            Some(building) => self.goal().solved(building.finish(budget)?, budget),
            None => Ok(None),
        }
    }

    /// Takes what a step gives, where that is better. Whether the ladder ends there, once so many have stood.
    fn climb(
        self,
        rung: Rung,
        count: &mut u32,
        best: &mut Option<Solved>,
        budget: &mut Budget,
    ) -> Result<bool, Memory> {
        match self.stood(rung, budget)? {
            Some(found) => Ok(take_step(found, rung, count, best)),
            None => Ok(false),
        }
    }

    /// Takes the best of the steps from the first on that finds its place: mostly that one, and else one of the next
    /// two whose bounds stand. Where bounds don't stand, again and again, more and more steps are left out: each is
    /// dear, and a little more room seldom helps.
    fn climb_all(self, best: &mut Option<Solved>, budget: &mut Budget) -> Result<(), Memory> {
        let mut step = self.first(budget)?;
        let mut count: u32 = 0;
        let mut more: usize = 1;
        for _turn in 0..RUNGS.len() {
            let Some(rung) = RUNGS.get(step) else {
                return Ok(());
            };
            let before = count;
            if self.climb(*rung, &mut count, best, budget)? {
                return Ok(());
            }
            if count > before {
                more = 1;
            }
            step = step.saturating_add(more);
            if count == before {
                more = more.saturating_mul(2);
            }
        }
        Ok(())
    }
}

/// Takes what a step gave, where that is better. Whether the ladder ends there, likewise.
fn take_step(found: Solved, rung: Rung, count: &mut u32, best: &mut Option<Solved>) -> bool {
    *count = (*count).saturating_add(1);
    let is_last = *count >= 3 || is_expected(&found, rung);
    put_better(best, found);
    is_last
}

/// Whether the bounds are about as wide as the room of a step lets them be.
fn is_expected(solved: &Solved, rung: Rung) -> bool {
    let unit = 1_i128 << QUALITY_PLACES;
    let room = rung.room.saturating_add(4).saturating_mul(unit >> 6);
    solved.quality <= unit.saturating_add(room)
}

/// The strides of chains on a ladder, the best first: templates that change slowly lie nearly between those of earlier
/// and later times, so that a chain that is too long does with every fourth.
static STRIDES: [usize; 3] = [1, 2, 4];

impl Goal<'_> {
    /// Takes what ladders give, where that is better: the first that does as much as the older tries could is the last.
    fn climb(self, best: &mut Option<Solved>, budget: &mut Budget) -> Result<(), Memory> {
        let widths = widths_of(self.alloc, self.chains, self.linear.states)?;
        let poles = poles_of(self.alloc, self.linear, &widths)?;
        self.climb_strides(&poles, widest(&widths), best, budget)
    }

    /// Takes what ladders of these poles give, likewise.
    fn climb_strides(
        self,
        poles: &[Pole],
        widest: i128,
        best: &mut Option<Solved>,
        budget: &mut Budget,
    ) -> Result<(), Memory> {
        for stride in STRIDES.iter() {
            let ladder = Ladder {
                alloc: self.alloc,
                linear: self.linear,
                chains: self.chains,
                starts: self.starts,
                poles,
                widest,
                stride: *stride,
            };
            ladder.climb_all(best, budget)?;
            if is_climbed(best) {
                return Ok(());
            }
        }
        Ok(())
    }

    /// Takes what a try gives, where that is better. Whether that is enough.
    fn try_one(
        self,
        one: Try,
        best: &mut Option<Solved>,
        budget: &mut Budget,
    ) -> Result<bool, Memory> {
        match self.with(one).solve_try(one, budget)? {
            Some(solved) => {
                let is_last = is_enough(&solved, one);
                put_better(best, solved);
                Ok(is_last)
            }
            None => Ok(false),
        }
    }

    /// Takes the best of the older tries. Where no work is left for exchanges, the others are left out.
    fn try_older(self, best: &mut Option<Solved>, budget: &mut Budget) -> Result<(), Memory> {
        let has_outputs = self.chains.len() > self.linear.states;
        for one in TRIES.iter().skip(1) {
            // without chains of outputs a try with them is one without
            let is_new = !one.with_outputs || has_outputs || one.shift != 3;
            if budget.is_spent() || (is_new && self.try_one(*one, best, budget)?) {
                return Ok(());
            }
        }
        Ok(())
    }

    /// Takes the best of the first try, the ladder, and the older tries where that isn't good.
    pub fn try_all(self, best: &mut Option<Solved>, budget: &mut Budget) -> Result<(), Memory> {
        if self.try_one(TRIES[0], best, budget)? {
            return Ok(());
        }
        self.climb(best, budget)?;
        if is_climbed(best) {
            return Ok(());
        }
        self.try_older(best, budget)
    }
}

/// Whether the ladder has done as much as the older tries could.
fn is_climbed(best: &Option<Solved>) -> bool {
    let unit = 1_i128 << QUALITY_PLACES;
    match best {
        Some(solved) => solved.quality <= unit.saturating_add(unit >> 1),
        None => false,
    }
}
