//! A step, and copies of steps.

use fx_expr::Items;
use fx_num::Memory;
use std::alloc::Global;

/// The number of the last rewriting rule. They count from 1.
pub const RULE_COUNT: i32 = 30;

/// By the rule of this number, from 1 on, at the end of a path in the tree at this place: temps and then results.
#[derive(Debug, Drop)]
pub struct Step {
    /// The tree's number, among the temps and then the results.
    pub place: u32,
    /// From the root, 0 into a first or only operand, 1 into a second.
    pub path: Items<u8>,
    /// The rule's number.
    pub rule: u8,
}

/// Equal steps.
pub fn copied_steps(alloc: Global, steps: &[Step]) -> Result<Vec<Step>, Memory> {
    let mut copies = Vec::new(alloc);
    for step in steps {
        let path = Vec::from_slice(alloc, step.path.as_slice())?;
        copies.push(Step {
            place: step.place,
            path: Items::from_vec(path),
            rule: step.rule,
        })?;
    }
    Ok(copies)
}
