//! The search, from its first draw to what the checker has certified.
//!
//! At certain tries, the marks, the best drafts so far are polished, and the best of all is certified at the end. What
//! was found up to a mark doesn't depend on how many tries follow, so more tries make no answer worse.
ghost use Rattle.std.specs.Prelude.{IfOk};
ghost use Rattle.fx_checker.specs.Answers.{IsOffered};

use crate::best::{Polished, polish_trial};
use crate::certify::{certified, certified_as, keeps};
use crate::climb::{Climb, Style};
use crate::front::Front;
use crate::seen::Seen;
use crate::task::{Task, affordable, references};
use fx_checker::Certified;
use fx_expr::Function;
use fx_moves::Draft;
use fx_num::{Dyadic, Memory};
use fx_wanted::Wanted;
use rand_core::SeedableRng;
use rand_pcg::Pcg32;
use std::alloc::Global;
use std::mem::replace;

/// How many plans are looked at in polishing a draft again, on coarser grids.
const PLANS: u32 = 256;

/// A try looks at so many drafts of the wide climb,
const TURNS: u32 = 8;

/// fewer where they have more nodes than these together.
const SHARED_NODES: u32 = 2000;

/// All plans of a mark have at most this part of the work of all tries.
const POLISH_PART: u32 = 4;

/// Whether the best drafts are polished after so many tries: after 1, 2 and 5, and ten times as many, and so on.
fn is_mark(tries: u32) -> bool {
    let mut first = tries;
    for _place in 0..9 {
        if first % 10 == 0 {
            first /= 10;
        }
    }
    first == 1 || first == 2 || first == 5
}

/// How many plans are looked at in polishing after so many tries. Between the marks nothing is polished, so that what
/// is found then is found at the next mark too.
fn plans_after(nodes: u32, tries: u32, style: Style) -> u32 {
    if is_mark(tries) {
        let more = tries.saturating_mul(style.plans_a_try);
        let plans = style.plans.saturating_add(more);
        affordable(nodes.saturating_mul(POLISH_PART), plans)
    } else {
        0
    }
}

/// Polishes the best drafts, as far as so many plans go, and lets them take the best one's place.
fn polish_front(
    alloc: Global,
    task: Task<'_>,
    front: &mut Front,
    best: &mut Option<Polished>,
    plans: u32,
) -> Result<(), Memory> {
    let mut left = plans;
    for i in 0..front.len() {
        if let Some(trial) = front.get(i) {
            if !trial.is_done {
                polish_trial(alloc, task, trial, best, &mut left)?;
            }
        }
        if left > 0 {
            front.finish(i);
        }
    }
    Ok(())
}

/// How many drafts a try looks at, in a function of so many nodes.
fn turns_a_try(nodes: u32) -> u32 {
    let few = SHARED_NODES.checked_div(nodes).unwrap_or(TURNS);
    few.clamp(1, TURNS)
}

/// Two climbs, each with its draws, and what both have found.
#[derive(Drop)]
struct Climbs {
    wide: Climb,
    wide_draws: Pcg32,
    narrow: Climb,
    narrow_draws: Pcg32,
    seen: Seen,
    best: Option<Polished>,
}

impl Climbs {
    /// At the source.
    fn at_source(alloc: Global, task: Task<'_>, seed: u64) -> Result<Climbs, Memory> {
        let seen = Seen::new(alloc)?;
        let wide = Climb::at_source(alloc, task, Style::WIDE)?;
        match Climb::at_source(alloc, task, Style::NARROW) {
            Ok(narrow) => Ok(Climbs {
                wide,
                wide_draws: Pcg32::seed_from_u64(seed),
                narrow,
                narrow_draws: Pcg32::seed_from_u64(seed),
                seen,
                best: None,
            }),
            Err(fault) => {
                drop(wide);
                Err(fault)
            }
        }
    }

    /// Looks at the drafts of the try of this number: some of the wide climb, and one of the narrow.
    fn climb(&mut self, alloc: Global, task: Task<'_>, number: u32) -> Result<(), Memory> {
        let turns = turns_a_try(task.source.nodes());
        let before = number.saturating_sub(2).saturating_mul(turns);
        for i in 0..turns {
            let turn = before.saturating_add(i).saturating_add(1);
            let draws = &mut self.wide_draws;
            self.wide.turn(alloc, draws, task, &mut self.seen, turn)?;
        }
        let draws = &mut self.narrow_draws;
        let turn = number.saturating_sub(1);
        self.narrow.turn(alloc, draws, task, &mut self.seen, turn)
    }

    /// Polishes the best drafts of both after so many tries.
    fn polish(&mut self, alloc: Global, task: Task<'_>, number: u32) -> Result<(), Memory> {
        let nodes = task.source.nodes();
        let plans = plans_after(nodes, number, Style::WIDE);
        polish_front(alloc, task, &mut self.wide.front, &mut self.best, plans)?;
        let plans = plans_after(nodes, number, Style::NARROW);
        polish_front(alloc, task, &mut self.narrow.front, &mut self.best, plans)
    }

    /// The try of this number, of which the source is the first, and the best behind it.
    fn turn(&mut self, alloc: Global, task: Task<'_>, number: u32) -> Result<(), Memory> {
        if number > 1 {
            self.climb(alloc, task, number)?;
        }
        if number == task.tries() || is_mark(number) {
            self.polish(alloc, task, number)?;
        }
        Ok(())
    }

    /// All tries.
    fn run(&mut self, alloc: Global, task: Task<'_>) -> Result<(), Memory> {
        for number in 1..task.tries().saturating_add(1) {
            self.turn(alloc, task, number)?;
        }
        Ok(())
    }
}

/// The best polished attempt among so many tries.
fn best_attempt(alloc: Global, task: Task<'_>, seed: u64) -> Result<Option<Polished>, Memory> {
    let mut climbs = Climbs::at_source(alloc, task, seed)?;
    let ran = climbs.run(alloc, task);
    let best = replace(&mut climbs.best, None);
    drop(climbs);
    match ran {
        Ok(()) => Ok(best),
        Err(fault) => {
            drop(best);
            Err(fault)
        }
    }
}

/// The certified program of a polished attempt, unless a bound is above the one that stands.
fn certify_polished(
    alloc: Global,
    task: Task<'_>,
    found: &Polished,
    held: &[Dyadic],
) -> Result<Option<Certified>, Memory>
    ensures { IfOk result (IsOffered task.entry.wanted task.entry.source.now) }
{
    let Some(certified) = certified_as(alloc, task, found, PLANS)? else {
        return Ok(None);
    };
    if keeps(&certified, held) {
        Ok(Some(certified))
    } else {
        drop(certified);
        Ok(None)
    }
}

/// The certified program of a draft, polished, unless a bound is above the one that stands.
fn certify_draft(
    alloc: Global,
    task: Task<'_>,
    draft: &Draft,
    held: &[Dyadic],
) -> Result<Option<Certified>, Memory>
    ensures { IfOk result (IsOffered task.entry.wanted task.entry.source.now) }
{
    let Some(found) = certified(alloc, task, draft, PLANS)? else {
        return Ok(None);
    };
    if keeps(&found, held) {
        Ok(Some(found))
    } else {
        drop(found);
        Ok(None)
    }
}

/// What the source as it stands gives, for want of a program by any steps.
fn certify_source(
    alloc: Global,
    task: Task<'_>,
    held: &[Dyadic],
) -> Result<Option<Certified>, Memory>
    ensures { IfOk result (IsOffered task.entry.wanted task.entry.source.now) }
{
    let source = Draft::new(alloc, task.source)?;
    certify_draft(alloc, task, &source, held)
}

/// What comes of the best polished attempt, or else of the source as it stands.
fn best_of(
    alloc: Global,
    task: Task<'_>,
    found: &Polished,
    held: &[Dyadic],
) -> Result<Option<Certified>, Memory>
    ensures { IfOk result (IsOffered task.entry.wanted task.entry.source.now) }
{
    match certify_polished(alloc, task, found, held)? {
        Some(certified) => Ok(Some(certified)),
        None => certify_source(alloc, task, held),
    }
}

/// The best that is found for a task.
fn best(
    alloc: Global,
    task: Task<'_>,
    seed: u64,
    held: &[Dyadic],
) -> Result<Option<Certified>, Memory>
    ensures { IfOk result (IsOffered task.entry.wanted task.entry.source.now) }
{
    match best_attempt(alloc, task, seed)? {
        Some(found) => {
            let kept = best_of(alloc, task, &found, held);
            drop(found);
            kept
        }
        None => certify_source(alloc, task, held),
    }
}

/// The best certified program that the search finds in so many tries, if it finds one.
///
/// `held` has the bounds of the answer that stands so far, one for each output, and none of them is exceeded; it is
/// empty where there is no answer. The first try is the function as it stands. Boxes and templates of states it doesn't
/// look for, so it finds nothing for a function that has some.
pub fn search(
    alloc: Global,
    function: &Function,
    wanted: Wanted,
    seed: u64,
    held: &[Dyadic],
) -> Result<Option<Certified>, Memory>
    ensures { IfOk result (IsOffered wanted function.now) }
{
    if wanted.tries == 0 {
        return Ok(None);
    }
    let references = references(alloc, function, wanted, held)?;
    let task = Task {
        source: function,
        wanted,
        references: &references,
    };
    best(alloc, task, seed, held)
}
