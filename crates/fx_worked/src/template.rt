//! Templates that one step keeps, for a plan with forms.

use crate::sources::{AVERAGER, function_of};
use fx_cert::Template;
use fx_flat::{Nodes, flatten};
use fx_num::{Dyadic, Interval, dle};
use fx_template::{
    Affine, Coefs, FoundTemplates, PlannedNodes, find_templates, is_modest, step_by_plan,
    templates_over,
};
use std::alloc::Global;
use std::process::Abort;
use std::test::Fail;

/// What is planned of a node, in parts of 8192.
struct Part {
    range: (i128, i128),
    error: (i128, i128),
    // how much it takes of the input, and of the state
    coefs: (i128, i128),
    // what is added to that
    rest: i128,
    error_rest: (i128, i128),
}

/// The plan of the averager in words of 16 bits at point 12: the input, the state, a half and the half of the state, a
/// half and the half of the input, the sum, and its two copies. A product loses 2 parts.
#[rattlefmt::skip]
static PARTS: [Part; 9] = [
    Part { range: (-8192, 8192), error: (-2, 0), coefs: (8192, 0), rest: 0, error_rest: (0, 0) },
    Part { range: (-8192, 8192), error: (-10, 0), coefs: (0, 8192), rest: 0, error_rest: (0, 0) },
    Part { range: (4096, 4096), error: (0, 0), coefs: (0, 0), rest: 4096, error_rest: (0, 0) },
    Part { range: (-4096, 4096), error: (-7, 0), coefs: (0, 4096), rest: 0, error_rest: (-2, 0) },
    Part { range: (4096, 4096), error: (0, 0), coefs: (0, 0), rest: 4096, error_rest: (0, 0) },
    Part { range: (-4096, 4096), error: (-3, 0), coefs: (4096, 0), rest: 0, error_rest: (-2, 0) },
    Part { range: (-8192, 8192), error: (-10, 0), coefs: (4096, 4096), rest: 0, error_rest: (-4, 0) },
    Part { range: (-8192, 8192), error: (-10, 0), coefs: (4096, 4096), rest: 0, error_rest: (-4, 0) },
    Part { range: (-8192, 8192), error: (-10, 0), coefs: (4096, 4096), rest: 0, error_rest: (-4, 0) },
];

/// `count` parts of 8192.
fn parts(count: i128) -> Dyadic {
    Dyadic::new(count, 13)
}

fn interval(ends: (i128, i128)) -> Interval {
    Interval {
        lo: parts(ends.0),
        hi: parts(ends.1),
    }
}

/// The form of a node.
fn form(alloc: Global, part: &Part) -> Result<Affine, Fail> {
    let mut coefs = Coefs::new(alloc);
    coefs.push(parts(part.coefs.0))?;
    coefs.push(parts(part.coefs.1))?;
    Ok(Affine {
        coefs,
        rest: interval((part.rest, part.rest)),
    })
}

/// The whole plan.
fn plan(alloc: Global) -> Result<PlannedNodes, Fail> {
    let mut plan = PlannedNodes {
        width: 16,
        points: Vec::new(alloc),
        ranges: Vec::new(alloc),
        errors: Vec::new(alloc),
        forms: Vec::new(alloc),
        error_rests: Vec::new(alloc),
        centres: Vec::new(alloc),
    };
    for part in &PARTS {
        plan.points.push(12)?;
        plan.ranges.push(interval(part.range))?;
        plan.errors.push(interval(part.error))?;
        plan.forms.push(Some(form(alloc, part)?))?;
        plan.error_rests.push(interval(part.error_rest))?;
        plan.centres.push((parts(0), parts(0)))?;
    }
    Ok(plan)
}

/// Whether a template of one state holds this interval, and not much more.
fn is_near(template: &Template, lo: i128, hi: i128) -> bool {
    let bound = template.bound;
    dle(bound.lo, parts(lo))
        && dle(parts(hi), bound.hi)
        && dle(parts(lo.saturating_sub(1)), bound.lo)
}

/// Whether the first templates are the least that any step keeps, or nearly: the state comes as near to -1 and 1 as one
/// likes, and its error to 10 parts below zero.
fn are_near(found: &FoundTemplates) -> bool {
    match (
        found.templates.as_slice().first(),
        found.error_templates.as_slice().first(),
    ) {
        (Some(template), Some(error_template)) => {
            is_near(template, -8192, 8192) && is_near(error_template, -10, 0)
        }
        _ => false,
    }
}

#[test]
fn templates_of_a_step(rt: HostRuntime) -> Result<(), Fail> {
    let alloc = rt.alloc();
    let nodes = flatten(alloc, &function_of(&rt, alloc, AVERAGER)?)?;
    assert!(rt; nodes.list.len() == PARTS.len());
    let plan = plan(alloc)?;
    let step = step_by_plan(alloc, &nodes, &plan)?;
    assert!(rt; is_modest(&step));
    assert!(rt; are_near(&templates_over(alloc, &step, 64)?));
    Ok(())
}

#[test]
fn templates_of_a_plan(rt: HostRuntime) -> Result<(), Fail> {
    let alloc = rt.alloc();
    let nodes = flatten(alloc, &function_of(&rt, alloc, AVERAGER)?)?;
    assert!(rt; nodes.list.len() == PARTS.len());
    let plan = plan(alloc)?;
    assert!(rt; is_modest(&step_by_plan(alloc, &nodes, &plan)?));
    assert!(rt; are_near(&find_templates(alloc, &nodes, &plan, 64)?));
    Ok(())
}
