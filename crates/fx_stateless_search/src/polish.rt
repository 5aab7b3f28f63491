//! Polish: points and words of an attempt, and the centres of its products, are moved one by one, and points of an
//! operation and its operands two at a time, as long as its cost falls.
//!
//! All that is tried is one list of nudges (`nudge`), gone over round and round until each was tried since the last
//! gain: tried again it would give the plan that it gave.

use crate::attempt::{Attempt, Placed};
use crate::nudge::{Nudge, follows, nudges_of};
use crate::task::Task;
use fx_expr::Function;
use fx_flat::Node;
use fx_num::Memory;
use fx_planning::{Plan, find_plan, move_word};
use fx_ranges::{Centres, Ranges, Unplanned, find_centred_ranges};
use std::alloc::Global;
use std::mem::replace;

/// No more rounds are made, though each had a gain.
const ROUNDS: u32 = 64;

/// What is polished, and how many plans may still be looked at.
#[derive(Drop)]
pub struct Polish<'a> {
    alloc: Global,
    task: Task<'a>,
    function: &'a Function,
    budget: u32,
}

/// The points, one of them moved, and those that have to be the same.
fn moved_points(
    alloc: Global,
    nodes: &[Node],
    points: &[i32],
    n: usize,
    by: i32,
) -> Result<Vec<i32>, Memory> {
    let mut moved = Vec::new(alloc);
    for (i, (node, point)) in nodes.iter().zip(points).enumerate() {
        let same = follows(node).and_then(|a| moved.get(a as usize).copied());
        let by = if i == n { by } else { 0 };
        moved.push(same.unwrap_or(point.saturating_add(by)))?;
    }
    Ok(moved)
}

/// The centres of all nodes, those of one moved.
fn moved_centres(
    alloc: Global,
    attempt: &Attempt,
    n: usize,
    to: Centres,
) -> Result<Vec<Centres>, Memory> {
    let mut moved = Vec::new(alloc);
    for i in 0..attempt.nodes.list.len() {
        let centres = if i == n {
            to
        } else {
            attempt.ranges.centres_of(i)
        };
        moved.push(centres)?;
    }
    Ok(moved)
}

impl<'a> Polish<'a> {
    /// A polish of a function that looks at `budget` plans, at most.
    pub fn new(alloc: Global, task: Task<'a>, function: &'a Function, budget: u32) -> Polish<'a> {
        Polish {
            alloc,
            task,
            function,
            budget,
        }
    }

    /// How many plans may still be looked at.
    pub fn left(&self) -> u32 {
        self.budget
    }

    /// Counts a plan, if there may be another.
    fn spend(&mut self) -> bool {
        let is_left = self.budget > 0;
        self.budget = self.budget.saturating_sub(1);
        is_left
    }

    /// Whether a point so moved is beyond the node's range, so that its word would be too small.
    fn is_beyond(&self, attempt: &Attempt, n: usize, by: i32) -> bool {
        let point = attempt.placed.points.get(n).copied();
        match (point, attempt.ranges.cap(n, self.task.wanted.width)) {
            (Some(point), Some(cap)) => by > 0 && point.saturating_add(by) > cap,
            _ => false,
        }
    }

    /// The plan with these ranges and points, where it is sound and costs less than the attempt's.
    fn cheaper_plan(
        &self,
        attempt: &Attempt,
        ranges: &Ranges,
        points: &[i32],
    ) -> Result<Option<Plan>, Memory> {
        let wanted = self.task.wanted;
        let goal = self.task.goal();
        let nodes = &attempt.nodes;
        match find_plan(
            self.alloc,
            self.function,
            nodes,
            ranges,
            points,
            wanted,
            goal,
        )? {
            Ok(plan) => {
                if plan.small().is_empty() && plan.cost() < attempt.placed.plan.cost() {
                    Ok(Some(plan))
                } else {
                    drop(plan);
                    Ok(None)
                }
            }
            Err(_) => Ok(None),
        }
    }

    /// Takes other points, where the cost falls by them.
    fn take_points(&self, attempt: &mut Attempt, points: Vec<i32>) -> Result<bool, Memory> {
        match self.cheaper_plan(attempt, &attempt.ranges, &points)? {
            Some(plan) => {
                drop(replace(&mut attempt.placed, Placed { points, plan }));
                Ok(true)
            }
            None => Ok(false),
        }
    }

    /// Moves a point, and keeps that where the cost falls.
    fn move_point(&mut self, attempt: &mut Attempt, n: usize, by: i32) -> Result<bool, Memory> {
        if self.is_beyond(attempt, n, by) || !self.spend() {
            return Ok(false);
        }
        let nodes = attempt.nodes.list.as_slice();
        let points = moved_points(self.alloc, nodes, &attempt.placed.points, n, by)?;
        self.take_points(attempt, points)
    }

    /// Moves two points together, likewise.
    fn move_pair(
        &mut self,
        attempt: &mut Attempt,
        (n, m): (usize, usize),
        (by, other): (i32, i32),
    ) -> Result<bool, Memory> {
        let is_beyond = self.is_beyond(attempt, n, by) || self.is_beyond(attempt, m, other);
        if is_beyond || !self.spend() {
            return Ok(false);
        }
        let nodes = attempt.nodes.list.as_slice();
        let first = moved_points(self.alloc, nodes, &attempt.placed.points, n, by)?;
        let points = moved_points(self.alloc, nodes, &first, m, other)?;
        self.take_points(attempt, points)
    }

    /// The ranges with the operands of a product centred elsewhere, or the first node that has none.
    fn centred(
        &self,
        attempt: &Attempt,
        n: usize,
        to: Centres,
    ) -> Result<Result<Ranges, Unplanned>, Memory> {
        let centres = moved_centres(self.alloc, attempt, n, to)?;
        let grids = attempt.ranges.grids();
        let nodes = &attempt.nodes;
        find_centred_ranges(self.alloc, self.function, nodes, grids, &[], &centres)
    }

    /// Takes other ranges, where the cost falls by them.
    fn take_ranges(&self, attempt: &mut Attempt, ranges: Ranges) -> Result<bool, Memory> {
        match self.cheaper_plan(attempt, &ranges, &attempt.placed.points)? {
            Some(plan) => {
                drop(replace(&mut attempt.placed.plan, plan));
                drop(replace(&mut attempt.ranges, ranges));
                Ok(true)
            }
            None => Ok(false),
        }
    }

    /// Centres the operands of a product elsewhere, and keeps that where the cost falls.
    fn move_centres(
        &mut self,
        attempt: &mut Attempt,
        n: usize,
        to: Centres,
    ) -> Result<bool, Memory> {
        let is_there = attempt.ranges.centres_of(n) == to || attempt.ranges.form(n).is_none();
        if is_there || !self.spend() {
            return Ok(false);
        }
        match self.centred(attempt, n, to)? {
            Ok(ranges) => self.take_ranges(attempt, ranges),
            Err(_) => Ok(false),
        }
    }

    /// Moves the word of a literal, and keeps that where the cost falls.
    fn move_word(&mut self, attempt: &mut Attempt, n: u32, units: i64) -> Result<bool, Memory> {
        if !self.spend() {
            return Ok(false);
        }
        move_word(
            self.alloc,
            self.function,
            &attempt.nodes,
            &attempt.ranges,
            &attempt.placed.points,
            self.task.goal(),
            &mut attempt.placed.plan,
            n,
            units,
        )
    }

    /// Tries a nudge, and keeps it where the cost falls.
    fn try_nudge(&mut self, attempt: &mut Attempt, nudge: Nudge) -> Result<bool, Memory> {
        match nudge {
            Nudge::Point { n, by } => self.move_point(attempt, n, by),
            Nudge::Word { n, units } => self.move_word(attempt, n, units),
            Nudge::Centre { n, to } => self.move_centres(attempt, n, to),
            Nudge::Pair { n, m, by, other } => self.move_pair(attempt, (n, m), (by, other)),
        }
    }

    /// Tries all nudges, until each was tried since the last gain, and answers how many were: so many were before.
    fn turn(
        &mut self,
        attempt: &mut Attempt,
        nudges: &[Nudge],
        before: usize,
    ) -> Result<usize, Memory> {
        let mut quiet = before;
        for nudge in nudges {
            if quiet >= nudges.len() {
                break;
            }
            let has_gain = self.try_nudge(attempt, *nudge)?;
            quiet = if has_gain { 0 } else { quiet.saturating_add(1) };
        }
        Ok(quiet)
    }

    /// Rounds over all nudges, until each was tried since the last gain.
    pub fn run(&mut self, attempt: &mut Attempt) -> Result<(), Memory> {
        let nudges = nudges_of(self.alloc, attempt.nodes.list.as_slice())?;
        let mut quiet = 0_usize;
        for _round in 0..ROUNDS {
            quiet = self.turn(attempt, &nudges, quiet)?;
            if self.budget == 0 || quiet >= nudges.len() {
                break;
            }
        }
        Ok(())
    }
}
