//! The weights of a function's nodes.

use crate::sources::{HALF, function_of};
use fx_flat::flatten;
use fx_weight::weights;
use std::test::Fail;

// The input, the literal, the sum and its copy.
#[test]
fn weights_of_half(rt: HostRuntime) -> Result<(), Fail> {
    let alloc = rt.alloc();
    let function = function_of(&rt, alloc, HALF)?;
    let nodes = flatten(alloc, &function)?;
    let weights = weights(alloc, &nodes, &function, 16)?;
    assert_eq!(rt; weights.w.as_slice(), [1, 0, 3, 3].as_slice());
    assert_eq!(rt; weights.v.as_slice(), [-11, -13, -8, -8].as_slice());
    Ok(())
}
