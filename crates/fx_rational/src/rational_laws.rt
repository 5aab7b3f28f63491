//! The laws of rationals.

ghost use Rattle.fx_rational.specs.Laws.{IsEquivalence, IsTotalOrder, OperationsRespectEqual, QuotientIsInverse, IsMonotone, FloorIsGreatest, ScalesByPowers, IntervalsHold, ErrorIdentities};

/// To be the same number is an equivalence.
pub fn equality_law()
    ensures { IsEquivalence }
{}

/// The order is total, and its test decides it.
pub fn order_law()
    ensures { IsTotalOrder }
{}

/// Each operation gives the same number for the same numbers.
pub fn operations_law()
    ensures { OperationsRespectEqual }
{}

/// A quotient is there exactly where the divisor isn't zero, and undoes the product.
pub fn quotient_law()
    ensures { QuotientIsInverse }
{}

/// The operations keep the order.
pub fn monotone_law()
    ensures { IsMonotone }
{}

/// A floor is the greatest whole number that isn't above.
pub fn floor_law()
    ensures { FloorIsGreatest }
{}

/// Scaling multiplies by a power of two.
pub fn scaling_law()
    ensures { ScalesByPowers }
{}

/// The interval of a result, from those of its operands.
pub fn interval_law()
    ensures { IntervalsHold }
{}

/// How errors of operands enter a product and a quotient.
pub fn error_law()
    ensures { ErrorIdentities }
{}
