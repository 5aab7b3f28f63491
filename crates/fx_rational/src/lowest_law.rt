//! The law of lowest terms.

ghost use Rattle.fx_rational.specs.LowestLaw.{LowestLaw};

/// A rational has exactly one spelling in lowest terms, and `lowest` gives it.
pub fn lowest_law()
    ensures { LowestLaw }
{}
