//! Laws of greatest common divisors and of lowest terms.

ghost use Rattle.fx_rational.specs.Gcd.{GcdLaw, OneSpellingLaw};

/// Euclid's algorithm gives the greatest common divisor.
pub fn gcd_law()
    ensures { GcdLaw }
{}

/// A fraction has one spelling in lowest terms.
pub fn one_spelling_law()
    ensures { OneSpellingLaw }
{}
