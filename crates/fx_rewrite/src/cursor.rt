//! The single steps of a function, one after the other.
//!
//! The list is never built: a cursor stands at a place, a path and a rule, and tries what comes next by reference. Its
//! value is the list of the steps that are left.
ghost use Rattle.std.specs.Prelude.{◌≡◌, ◌∷◌, [], IfOk, OnErr, MatchOption};
ghost use Rattle.fx_rules.specs.SingleSteps.{single_steps};
ghost use Rattle.fx_step.specs.StepView.{step_view};
ghost use Rattle.fx_rewrite.specs.Left.{left};

use crate::first::first_at;
use crate::successor::{copied, position_after};
use fx_expr::{Function, Items};
use fx_num::Memory;
use fx_step::Step;
use std::alloc::Global;

/// Where the cursor stands: nothing before this rule at this path in this tree is left.
#[derive(Debug, Drop)]
pub struct SingleSteps<'a> {
    function: &'a Function,
    place: u32,
    path: Vec<u8>,
    rule: u8,
}

impl<'a> SingleSteps<'a> {
    /// All single steps of a function.
    pub fn new(alloc: Global, function: &'a Function) -> SingleSteps<'a>
        ensures { left result ≡ single_steps function.now }
    {
        SingleSteps {
            function,
            place: 0,
            path: Vec::new(alloc),
            rule: 1,
        }
    }

    /// The next one, if there is one.
    pub fn next(&mut self, alloc: Global) -> Result<Option<Step>, Memory>
        ensures next { IfOk result
            (λ o. MatchOption o (left self.old ≡ []) (λ s. left self.old ≡ step_view s ∷ left self.new)) }
        ensures same { OnErr result (left self.new ≡ left self.old) }
    {
        while let Some(whole) = self.function.tree(self.place) {
            if let Some(rule) = first_at(self.function, whole, &self.path, self.rule) {
                let path = copied(alloc, &self.path)?;
                self.rule = rule + 1;
                return Ok(Some(Step {
                    place: self.place,
                    path: Items::from_vec(path),
                    rule,
                }));
            }
            let position = position_after(alloc, self.function, whole, self.place, &self.path)?;
            self.place = position.place;
            self.path = position.path;
            self.rule = 1;
        }
        Ok(None)
    }
}
