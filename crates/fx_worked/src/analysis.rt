//! A plan of given ranges and points.

use crate::sources::{GREAT, function_of};
use fx_analysis::{points, ranges};
use fx_expr::Items;
use fx_flat::flatten;
use fx_num::{Dyadic, Interval};
use fx_program::Round;
use fx_rewrite::apply;
use fx_step::Step;
use fx_template::roundoff;
use std::test::Fail;

// The product reaches 1.6 * 10^19, which no certificate can hold. Rule 5 takes the eighth of the second factor first.
#[test]
fn a_plan_after_a_step(rt: HostRuntime) -> Result<(), Fail> {
    let alloc = rt.alloc();
    let mut function = function_of(&rt, alloc, GREAT)?;
    let step = Step {
        place: 0,
        path: Items::from_vec(Vec::new(alloc)),
        rule: 5,
    };
    apply(alloc, &mut function, &step)?;
    let nodes = flatten(alloc, &function)?;
    assert!(rt; nodes.states == 0);
    let boxes = Vec::new(alloc);
    function.keeps();
    let ranges = ranges(alloc, &nodes, &function, &boxes)?;
    let points = points(alloc, &nodes, &ranges, 32)?;
    let plan = roundoff(
        alloc,
        &nodes,
        &function,
        32,
        points,
        ranges,
        &boxes,
        Round::Floor,
    )?;
    assert_eq!(rt;
        plan.points.as_slice(),
        [-2, -2, 33, 1, -31, -31].as_slice()
    );
    let error = Interval {
        lo: Dyadic::new(-8_147_483_648, 0),
        hi: Dyadic::new(4, 0),
    };
    assert_eq!(rt; plan.errors.last().copied(), Some(error));
    Ok(())
}
