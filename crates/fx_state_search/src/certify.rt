//! A function as it stands, and once more with its literals folded and its quotients by literals turned into products.
//!
//! A quotient has no form, so that all that goes through it counts as an interval: `state + (input - state) / 16` has
//! no certificate as it stands, and has one as `state + (input - state) * 0.0625`.

ghost use Rattle.std.specs.Prelude.{Contains, IfOk};
ghost use Rattle.fx_model.specs.LawfulProgram.{widths};
ghost use Rattle.fx_checker.specs.Answers.{IsAnswerFor, IsOffered};

use crate::attempt::certified;
use crate::task::Task;
use fx_checker::Certified;
use fx_expr::Function;
use fx_flat::{Node, Nodes, flatten};
use fx_moves::{Draft, clean_all};
use fx_num::{Memory, dle};
use fx_search_numbers::Grids;
use fx_simplex::Budget;
use fx_wanted::Wanted;
use std::alloc::Global;

/// How many quotients there are.
fn quotients(nodes: &Nodes) -> usize {
    let mut count: usize = 0;
    for node in nodes.list.as_slice() {
        if let Node::Div { .. } = node {
            count = count.saturating_add(1);
        }
    }
    count
}

/// The function with its literals folded and its quotients by literals turned into products.
fn cleaned(alloc: Global, function: &Function) -> Result<Draft, Memory> {
    let mut draft = Draft::new(alloc, function)?;
    clean_all(alloc, &mut draft)?;
    Ok(draft)
}

/// Whether no bound is above another program's, and one is below.
fn is_better(own: &Certified, other: &Certified) -> bool {
    let outputs = own.program().outputs.min(other.program().outputs);
    let mut is_some = false;
    for j in 0..outputs {
        if !dle(own.bound(j), other.bound(j)) {
            return false;
        }
        is_some = is_some || !dle(other.bound(j), own.bound(j));
    }
    is_some
}

/// The program with the better bounds, and the first one where neither is better.
fn better(task: Task<'_>, found: Certified, other: Certified) -> Certified
    requires found { IsAnswerFor task.wanted task.source.now found }
    requires other { IsAnswerFor task.wanted task.source.now other }
    ensures { IsAnswerFor task.entry.wanted task.entry.source.now result }
{
    if is_better(&other, &found) {
        drop(found);
        other
    } else {
        drop(other);
        found
    }
}

/// The program with the better bounds, the first one where neither is better or there is no other.
fn better_of(task: Task<'_>, found: Certified, other: Option<Certified>) -> Certified
    requires found { IsAnswerFor task.wanted task.source.now found }
    requires other { IsOffered task.wanted task.source.now other }
    ensures { IsAnswerFor task.entry.wanted task.entry.source.now result }
{
    match other {
        Some(other) => better(task, found, other),
        None => found,
    }
}

/// What a cleaned function gives, of which these are the nodes.
fn certified_turned(
    alloc: Global,
    task: Task<'_>,
    draft: &Draft,
    nodes: &Nodes,
    budget: &mut Budget,
) -> Result<Option<Certified>, Memory>
    ensures { IfOk result (IsOffered task.entry.wanted task.entry.source.now) }
{
    let steps = draft.steps.steps(alloc)?;
    let turned = Task {
        steps: &steps,
        function: &draft.function,
        nodes,
        ..task
    };
    certified(alloc, turned, budget)
}

/// What a cleaned function gives. It is looked for where a quotient was turned, and where nothing was found and
/// cleaning changed something.
fn certified_draft(
    alloc: Global,
    task: Task<'_>,
    draft: &Draft,
    is_found: bool,
    budget: &mut Budget,
) -> Result<Option<Certified>, Memory>
    ensures { IfOk result (IsOffered task.entry.wanted task.entry.source.now) }
{
    let nodes = flatten(alloc, &draft.function)?;
    let is_turned = quotients(&nodes) < quotients(task.nodes);
    if draft.steps.is_empty() || (is_found && !is_turned) {
        Ok(None)
    } else {
        certified_turned(alloc, task, draft, &nodes, budget)
    }
}

/// What the function gives once it is cleaned, where that is looked for.
fn certified_cleaned(
    alloc: Global,
    task: Task<'_>,
    is_found: bool,
    budget: &mut Budget,
) -> Result<Option<Certified>, Memory>
    ensures { IfOk result (IsOffered task.entry.wanted task.entry.source.now) }
{
    let draft = cleaned(alloc, task.source)?;
    certified_draft(alloc, task, &draft, is_found, budget)
}

/// The better one of what was found and what the cleaned function gives.
fn best_of(
    alloc: Global,
    task: Task<'_>,
    found: Certified,
    budget: &mut Budget,
) -> Result<Option<Certified>, Memory>
    requires { IsAnswerFor task.wanted task.source.now found }
    ensures { IfOk result (IsOffered task.entry.wanted task.entry.source.now) }
{
    match certified_cleaned(alloc, task, true, budget) {
        Ok(other) => Ok(Some(better_of(task, found, other))),
        Err(memory) => {
            drop(found);
            Err(memory)
        }
    }
}

/// What the function as it stands gives, or the cleaned one where that is better.
fn best(alloc: Global, task: Task<'_>, budget: &mut Budget) -> Result<Option<Certified>, Memory>
    ensures { IfOk result (IsOffered task.entry.wanted task.entry.source.now) }
{
    match certified(alloc, task, budget)? {
        Some(found) => best_of(alloc, task, found, budget),
        None => certified_cleaned(alloc, task, false, budget),
    }
}

/// A certified program for a function with states, if one is found.
pub fn certify_states(
    alloc: Global,
    function: &Function,
    wanted: Wanted,
) -> Result<Option<Certified>, Memory>
    requires width { Contains widths wanted.width }
    ensures { IfOk result (IsOffered wanted function.now) }
{
    let nodes = flatten(alloc, function)?;
    let mut budget = Budget::whole();
    let task = Task {
        source: function,
        steps: &[],
        function,
        nodes: &nodes,
        wanted,
        grids: Grids::FINE,
    };
    best(alloc, task, &mut budget)
}
