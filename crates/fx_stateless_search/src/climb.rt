//! Climbing: from the best drafts so far by small moves, with some heat, and back to one of them where nothing is
//! gained.
//!
//! Which tries begin at the source, and all that is drawn, doesn't depend on how many tries there are in all: more
//! tries are the same ones and others behind them.

use crate::front::{Front, Trial};
use crate::seen::Seen;
use crate::task::Task;
use fx_moves::{Draft, Limits, clean_all, draw, factor_all, form, mutate};
use fx_num::Memory;
use fx_planning::Cost;
use fx_search_numbers::Rounded;
use rand_core::Rng;
use std::alloc::Global;
use std::mem::replace;

/// The first drafts begin at the source: it is cleaned, then factored at random up to this one, and in a climb with
/// forms these come behind.
const RANDOM_STARTS: u32 = 4;

/// How a climb goes.
#[derive(Clone, Copy)]
pub struct Style {
    /// The limits of its drafts' steps.
    limits: Limits,
    /// How many random moves lead from a draft to another, at most.
    moves: u32,
    /// How many drafts begin at the source before any other.
    first_starts: u32,
    /// The first of the later drafts that begin at the source again.
    later_start: u32,
    /// The last of these.
    last_start: u32,
    /// After how many tries without gain one of the best is taken up again.
    patience: u32,
    /// How many steps a dearer draft that is taken up has, at most.
    warm_steps: usize,
    /// How many of the best are kept.
    kept: usize,
    /// How many plans are looked at in polishing them, whatever the tries.
    pub plans: u32,
    /// How many plans more are looked at for each try so far.
    pub plans_a_try: u32,
}

impl Style {
    /// By long ways, from directed forms too.
    pub const WIDE: Style = Style {
        limits: Limits::WIDE,
        moves: 6,
        first_starts: 20,
        later_start: 33,
        last_start: 48,
        patience: 60,
        warm_steps: 512,
        kept: 20,
        plans: 128,
        plans_a_try: 8,
    };

    /// By few moves, near the source.
    pub const NARROW: Style = Style {
        limits: Limits::NARROW,
        moves: 3,
        first_starts: 4,
        later_start: 21,
        last_start: 36,
        patience: 20,
        warm_steps: 32,
        kept: 5,
        plans: 64,
        plans_a_try: 2,
    };

    /// Whether a try begins at the source. The source itself is the one before them.
    fn is_start(self, turn: u32) -> bool {
        turn <= self.first_starts || (self.later_start <= turn && turn <= self.last_start)
    }
}

/// Where a search stands.
#[derive(Drop)]
pub struct Climb {
    style: Style,
    current: Trial,
    /// The best drafts so far.
    pub front: Front,
    /// How many tries ago the last gain was.
    since: u32,
    /// How often one of the best was taken up again.
    returns: u32,
}

/// A cost raised by at most a tenth.
fn heated<R: Rng>(rng: &mut R, cost: Cost) -> Cost {
    let part = draw(rng, 1 << 16);
    match cost {
        Cost::Planned { excess, mean } => {
            let factor = Rounded::of(655_360_i128 + i128::from(part), 0);
            Cost::Planned {
                excess,
                mean: mean.times(factor).over(Rounded::of(655_360, 0)),
            }
        }
        Cost::Unplanned { left } => Cost::Unplanned { left },
    }
}

/// Begins a draft at the source: first it is only cleaned, then factored at random, then come the directed forms, and
/// behind them it is factored at random again.
fn start<R: Rng>(
    alloc: Global,
    rng: &mut R,
    draft: &mut Draft,
    style: Style,
    turn: u32,
) -> Result<(), Memory> {
    if turn == 1 {
        return clean_all(alloc, draft);
    }
    let is_due = RANDOM_STARTS < turn && turn <= style.first_starts;
    let number = turn.saturating_sub(RANDOM_STARTS).saturating_sub(1);
    if is_due && form(alloc, draft, number)? {
        return Ok(());
    }
    factor_all(alloc, rng, draft)
}

/// A draft that begins at the source.
fn started<R: Rng>(
    alloc: Global,
    rng: &mut R,
    task: Task<'_>,
    style: Style,
    turn: u32,
) -> Result<Draft, Memory> {
    let mut draft = Draft::within(alloc, task.source, style.limits)?;
    start(alloc, rng, &mut draft, style, turn)?;
    Ok(draft)
}

impl Climb {
    /// At the source, which is the best so far.
    pub fn at_source(alloc: Global, task: Task<'_>, style: Style) -> Result<Climb, Memory> {
        let draft = Draft::within(alloc, task.source, style.limits)?;
        let source = Trial::new(alloc, task, draft)?;
        let mut front = Front::new(alloc, style.kept);
        match front.keep(alloc, &source) {
            Ok(_) => Ok(Climb {
                style,
                current: source,
                front,
                since: 0,
                returns: 0,
            }),
            Err(fault) => {
                drop(front);
                drop(source);
                Err(fault)
            }
        }
    }

    /// Which of the best is taken up again: the best every other time, and the others in turn.
    fn return_to(&self) -> usize {
        let others = self.front.len().saturating_sub(1);
        let turn = (self.returns >> 1) as usize;
        if self.returns & 1 == 0 {
            0
        } else {
            turn.checked_rem(others).map_or(0, |i| i.saturating_add(1))
        }
    }

    /// Takes up one of the best again.
    fn go_back(&mut self, alloc: Global) -> Result<(), Memory> {
        if let Some(trial) = self.front.get(self.return_to()) {
            let copy = trial.copy(alloc)?;
            drop(replace(&mut self.current, copy));
        }
        self.since = 0;
        self.returns = self.returns.wrapping_add(1);
        Ok(())
    }

    /// A draft by random moves from the current one, or from one of the best where nothing was gained for long.
    fn moved<R: Rng>(&mut self, alloc: Global, rng: &mut R) -> Result<Draft, Memory> {
        self.since = self.since.saturating_add(1);
        if self.since > self.style.patience {
            self.go_back(alloc)?;
        }
        let mut draft = self.current.draft.copy(alloc)?;
        mutate(alloc, rng, &mut draft, self.style.moves)?;
        Ok(draft)
    }

    /// Whether a trial takes the current one's place.
    fn accepts<R: Rng>(&self, rng: &mut R, trial: &Trial, is_start: bool) -> bool {
        let old = self.current.cost;
        let limit = heated(rng, old);
        let steps = trial.draft.steps.len();
        if trial.cost < old {
            return true;
        }
        if trial.cost == old {
            return steps <= self.current.draft.steps.len();
        }
        !is_start && steps <= self.style.warm_steps && trial.cost < limit
    }

    /// Keeps a copy of a trial that is among the best.
    fn keep(&mut self, alloc: Global, trial: &Trial) -> Result<(), Memory> {
        if self.front.keep(alloc, trial)? {
            self.since = 0;
        }
        Ok(())
    }

    /// Takes a trial up, where it is accepted.
    fn take<R: Rng>(&mut self, rng: &mut R, trial: Trial, is_start: bool) {
        if self.accepts(rng, &trial, is_start) {
            drop(replace(&mut self.current, trial));
        } else {
            drop(trial);
        }
    }

    /// The draft to try next.
    fn next_draft<R: Rng>(
        &mut self,
        alloc: Global,
        rng: &mut R,
        task: Task<'_>,
        turn: u32,
    ) -> Result<Draft, Memory> {
        if self.style.is_start(turn) {
            started(alloc, rng, task, self.style, turn)
        } else {
            self.moved(alloc, rng)
        }
    }

    /// Makes the attempt of a draft that isn't the current one, and lets it serve.
    fn attempt<R: Rng>(
        &mut self,
        alloc: Global,
        rng: &mut R,
        task: Task<'_>,
        seen: &mut Seen,
        draft: Draft,
        is_start: bool,
    ) -> Result<(), Memory> {
        let trial = seen.trial(alloc, task, draft)?;
        self.keep(alloc, &trial)?;
        self.take(rng, trial, is_start);
        Ok(())
    }

    /// The try of this number, from 1 on behind the source.
    pub fn turn<R: Rng>(
        &mut self,
        alloc: Global,
        rng: &mut R,
        task: Task<'_>,
        seen: &mut Seen,
        turn: u32,
    ) -> Result<(), Memory> {
        let draft = self.next_draft(alloc, rng, task, turn)?;
        if draft.is_same(&self.current.draft) {
            drop(draft);
            return Ok(());
        }
        self.attempt(alloc, rng, task, seen, draft, self.style.is_start(turn))
    }
}
