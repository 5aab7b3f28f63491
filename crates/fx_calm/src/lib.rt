//! The calm plan: for a linear function whose states halve at each step, the program and the certificate by rule.
//!
//! # Contract
//!
//! `calm_plan` gives the program and the certificate of `fx_plan_laws` (`program`, `certificate`), and `NotCalm`
//! exactly where the function isn't calm at the width (`calm`, `not_calm`); `narrow` is what else `calm_law` asks.
//! Inside, `find_numbers` gives the numbers of a function that is calm, exactly as they are defined, and none of any
//! other; each exponent that is looked for is raised thing by thing to the least that is enough (`IsLeast`).
//! `adds_up_to` answers exactly whether up to 64 fractions, none below zero, each below 2^62, with denominators below
//! 2^122 and numerators below 2^127, add up to at most a whole number, though their common denominator may have
//! thousands of bits: all are divided at once, digit by digit, and without memory (`sum_law`: 2,605 digits decide).
//!
//! # Inside
//!
//! First the numbers of a function are found, each the least exponent at which a list of things is within a limit:
//! starts, inputs, literals, errors, and sums over the terms of results. Sums of sizes are fractions of different
//! denominators, which have no common one of 128 bits: those of 64 may have 8,000. Their long division ends as soon as
//! the rests, which are below one each, can't change the comparison: mostly at the first digits. Sums of decimals that
//! are the number itself end where no rest is left; of other fractions they take the 2,605 digits, since two different
//! sums differ by a fraction of their denominators' product.
//!
//! Then the plan is made of the numbers: sums add up bounds that count units, and products multiply them and round
//! upward. The trap: bounds have 61 bits and words 64 in a calm function only, which its law says and no test here.
#![tactic(auto)]

mod bound;
mod code;
mod fault;
mod least;
mod limit;
mod line;
mod long_division;
mod magnitude;
mod narrow;
mod numbers;
mod plan;
mod sum;
mod summand;
mod terms;
mod walk;

ghost use Rattle.fx_calm.specs.Summands.{SumLaw};

pub use fault::CalmFault;
pub use plan::calm_plan;

/// A sum's digits decide, as many as are looked at.
pub fn sum_law()
    ensures { SumLaw }
{}
