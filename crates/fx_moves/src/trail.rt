//! The steps of a draft, with the paths of all of them in one vector.
//!
//! A search copies drafts more often than it changes them, and a draft may have a thousand steps: two vectors of plain
//! numbers are copied at once, where a path each would want memory by itself.

use fx_expr::Items;
use fx_num::Memory;
use fx_step::Step;
use std::alloc::Global;

/// A step but for its path, which has so many digits and stands behind the paths of the steps before it.
#[derive(Clone, Copy)]
struct Mark {
    place: u32,
    rule: u8,
    digits: usize,
}

/// A step's number, and where its path stands.
#[derive(Clone, Copy)]
struct Spot {
    number: usize,
    start: usize,
    end: usize,
}

/// Steps, the first one first.
#[derive(Drop)]
pub struct Trail {
    marks: Vec<Mark>,
    paths: Vec<u8>,
}

/// Whether one path leads through the other's end.
fn are_related(a: &[u8], b: &[u8]) -> bool {
    a.starts_with(b) || b.starts_with(a)
}

impl Trail {
    /// No steps.
    pub fn new(alloc: Global) -> Trail {
        Trail {
            marks: Vec::new(alloc),
            paths: Vec::new(alloc),
        }
    }

    /// An equal trail.
    pub fn copy(&self, alloc: Global) -> Result<Trail, Memory> {
        Ok(Trail {
            marks: Vec::from_slice(alloc, &self.marks)?,
            paths: Vec::from_slice(alloc, &self.paths)?,
        })
    }

    /// How many steps there are.
    pub fn len(&self) -> usize {
        self.marks.len()
    }

    /// Whether there is none.
    pub fn is_empty(&self) -> bool {
        self.marks.is_empty()
    }

    /// Appends a step.
    pub fn push(&mut self, place: u32, path: &[u8], rule: u8) -> Result<(), Memory> {
        self.paths.extend_from_slice(path)?;
        self.marks.push(Mark {
            place,
            rule,
            digits: path.len(),
        })?;
        Ok(())
    }

    /// The last step that is at a tree above or below this one, if it is the one by this rule at just this path.
    fn undone(&self, place: u32, path: &[u8], rule: u8) -> Option<Spot> {
        let mut end = self.paths.len();
        for number in (0..self.marks.len()).rev() {
            let mark = self.marks[number];
            let start = end.saturating_sub(mark.digits);
            let way = self.paths.get(start..end).unwrap_or(&[]);
            if mark.place == place && are_related(path, way) {
                let is_undone = mark.rule == rule && path == way;
                return is_undone.then_some(Spot { number, start, end });
            }
            end = start;
        }
        None
    }

    /// Takes a step away.
    fn remove(&mut self, spot: Spot) {
        let Spot { number, start, end } = spot;
        if start <= end && end <= self.paths.len() && number < self.marks.len() {
            let left = self.paths.len() - (end - start);
            self.paths.copy_within(end.., start);
            self.paths.truncate(left);
            let _ = self.marks.remove(number);
        }
    }

    /// Takes the last step away that is at a tree above or below this one, if it is the one by this rule at just this
    /// path. Says whether it was.
    pub fn undo(&mut self, place: u32, path: &[u8], rule: u8) -> bool {
        match self.undone(place, path, rule) {
            Some(spot) => {
                self.remove(spot);
                true
            }
            None => false,
        }
    }

    /// The steps, each with a path of its own.
    pub fn steps(&self, alloc: Global) -> Result<Vec<Step>, Memory> {
        let mut steps = Vec::new(alloc);
        let mut start = 0_usize;
        for mark in &self.marks {
            let end = start.saturating_add(mark.digits);
            let path = Vec::from_slice(alloc, self.paths.get(start..end).unwrap_or(&[]))?;
            steps.push(Step {
                place: mark.place,
                path: Items::from_vec(path),
                rule: mark.rule,
            })?;
            start = end;
        }
        Ok(steps)
    }
}
