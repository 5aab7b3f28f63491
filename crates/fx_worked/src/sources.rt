//! The functions over which calls are made.

use fx_expr::Function;
use fx_parser::parse;
use std::alloc::Global;
use std::process::Abort;
use std::test::Fail;

/// `x + 0.5` for x from 0 to 1.
pub(crate) const HALF: &str = "\
def f(x: Real): Real = {
  require(0 <= x && x <= 1)
  x + 0.5
}";

/// An eighth of a product that no certificate can hold.
pub(crate) const GREAT: &str = "\
def f(x: Real, y: Real): Real = {
  require(0 <= x && x <= 4e9 && 0 <= y && y <= 4e9)
  x * y * 0.125
}";

/// A state that goes half of the way to the input at each row.
pub(crate) const AVERAGER: &str = "\
def g(u: Real)(x: Real = 0.0): (Real, Real) = {
  require(-1 <= u && u <= 1)
  val y = 0.5 * x + 0.5 * u
  (y, y)
}";

/// The function of a source.
pub(crate) fn function_of(rt: &impl Abort, alloc: Global, source: &str) -> Result<Function, Fail> {
    let bytes = source.as_bytes();
    assert!(rt; bytes.len() < 1_000);
    let function = parse(alloc, bytes, None)?;
    Ok(function)
}
