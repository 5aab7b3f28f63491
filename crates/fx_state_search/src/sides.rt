//! Both kinds of boxes: of values, in which ranges are found, and of errors, in which a plan is.

use crate::settle::Settling;
use crate::task::Task;
use fx_cert::{NodeLine, Side};
use fx_num::Memory;
use fx_planning::{Plan, find_plan_in};
use fx_ranges::{Ranges, find_ranges_in, start_error, start_range};
use fx_search_numbers::FixedInterval;
use fx_writing::{plan_lines, range_lines};
use std::alloc::Global;

/// Ranges, in boxes of values.
#[derive(Clone, Copy)]
pub struct OfValues;

/// A plan at these points, in boxes of errors.
#[derive(Clone, Copy)]
pub struct OfErrors<'a> {
    pub ranges: &'a Ranges,
    pub points: &'a [i32],
}

impl Settling for OfValues {
    type Found = Ranges;

    fn side(&self) -> Side {
        Side::Value
    }

    fn points(&self) -> &[i32] {
        &[]
    }

    fn start(&self, task: Task<'_>, k: usize) -> Option<FixedInterval> {
        start_range(task.function, k, task.grids)
    }

    fn found_in(
        &self,
        alloc: Global,
        task: Task<'_>,
        boxes: &[FixedInterval],
    ) -> Result<Option<(Ranges, Vec<NodeLine>)>, Memory> {
        let Ok(ranges) = find_ranges_in(alloc, task.function, task.nodes, task.grids, boxes)? else {
            return Ok(None);
        };
        let lines = range_lines(alloc, task.nodes, &ranges)?;
        Ok(Some((ranges, lines)))
    }
}

impl Settling for OfErrors<'_> {
    type Found = Plan;

    fn side(&self) -> Side {
        Side::Error
    }

    fn points(&self) -> &[i32] {
        self.points
    }

    /// What the word errs that a state starts with.
    fn start(&self, task: Task<'_>, k: usize) -> Option<FixedInterval> {
        let function = task.function;
        let node = function.inputs.len().saturating_add(k);
        let point = self.points.get(node).copied().unwrap_or(0);
        start_error(function, k, point, task.wanted.width, task.grids)
    }

    fn found_in(
        &self,
        alloc: Global,
        task: Task<'_>,
        boxes: &[FixedInterval],
    ) -> Result<Option<(Plan, Vec<NodeLine>)>, Memory> {
        let found = find_plan_in(
            alloc,
            task.function,
            task.nodes,
            self.ranges,
            self.points,
            task.wanted,
            boxes,
        )?;
        let Ok(plan) = found else {
            return Ok(None);
        };
        let lines = plan_lines(alloc, task.nodes, self.ranges, &plan)?;
        Ok(Some((plan, lines)))
    }
}
