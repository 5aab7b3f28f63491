//! Laws of dyadics and of intervals with dyadic ends.
//!
//! Each function's contract is a law of the definitions in `specs/`, and its body is empty: nothing here runs. They say
//! what the definitions are for, so that a reader need not trust a formula with mantissas and exponents: the value of a
//! sum is the sum of the values, a rounding is the nearest on its side, an interval holds what its members give.

ghost use Rattle.fx_rational.specs.DyadicLaws.{FitsLaw, FloorLaw, CeilingLaw, SumLaw, DifferenceLaw, ProductLaw, OrderLaw, LeastLaw, GreatestLaw, RoundedDownLaw, RoundedUpLaw, IntervalSumLaw, IntervalDifferenceLaw, IntervalProductLaw, InsideLaw, OutwardLaw};

/// A mantissa fits exactly where Rust's i128 has it.
pub fn fits_law()
    ensures { FitsLaw }
{}

/// `floor_div` is the greatest whole number not above the quotient.
pub fn floor_law()
    ensures { FloorLaw }
{}

/// `ceil_div` is the least whole number not below the quotient.
pub fn ceiling_law()
    ensures { CeilingLaw }
{}

/// The value of a dyadic sum is the sum of the values.
pub fn sum_law()
    ensures { SumLaw }
{}

/// The value of a dyadic difference is the difference of the values.
pub fn difference_law()
    ensures { DifferenceLaw }
{}

/// The value of a dyadic product is the product of the values.
pub fn product_law()
    ensures { ProductLaw }
{}

/// The test on dyadics is the order of their values.
pub fn order_law()
    ensures { OrderLaw }
{}

/// `least` is the lesser of two dyadics, and the first of equals.
pub fn least_law()
    ensures { LeastLaw }
{}

/// `greatest` is the greater of two dyadics, and the first of equals.
pub fn greatest_law()
    ensures { GreatestLaw }
{}

/// A rounding down is the greatest dyadic below with few enough binary places.
pub fn rounded_down_law()
    ensures { RoundedDownLaw }
{}

/// A rounding up is the least dyadic above with few enough binary places.
pub fn rounded_up_law()
    ensures { RoundedUpLaw }
{}

/// A sum of intervals holds the sum of any two members.
pub fn interval_sum_law()
    ensures { IntervalSumLaw }
{}

/// A difference of intervals holds the difference of any two members.
pub fn interval_difference_law()
    ensures { IntervalDifferenceLaw }
{}

/// A product of intervals holds the product of any two members.
pub fn interval_product_law()
    ensures { IntervalProductLaw }
{}

/// An interval inside another has no member that the other lacks.
pub fn inside_law()
    ensures { InsideLaw }
{}

/// `outward_to` gives the narrowest interval round another with few enough binary places.
pub fn outward_law()
    ensures { OutwardLaw }
{}
