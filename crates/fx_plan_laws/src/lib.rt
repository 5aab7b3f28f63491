//! What plans by rule rest on: how great the numbers of a plan get, which functions are calm, and that the calm plan of
//! a calm function is accepted.
//!
//! # Contract
//!
//! Laws over definitions. **Sizes**: the plain plan and the calm plan share powers of two, the search for the first of
//! them, numbers as narrow as the code's, and which demands a power of two allows. A formula is *small* where its
//! mantissas fit and the last, counted at one exponent, is at most a given whole number (`IsSmall` of `proofs/Sizes`);
//! sums add these numbers and products multiply them, so that a claim is met by counting. `first_true_law`: a search
//! finds the first place at which its test is true. **Calm functions**: a function with states and without `val` is
//! *calm* at a width where its results are sums, differences and negations of at most 64 literals, inputs, states and
//! products of a literal with an input or a state, a step halves the states, seven numbers leave room, and no demand
//! has an end or an error below two to the last of them (`specs/Calm.antt`). `calm_test_law`: the test, whose searches
//! end, is true exactly where there are such least numbers. A result's bounds, counted in units of the point, come to
//! at most what its terms are worth and some units for each (`proofs/Totals`). **The calm plan**: for each calm
//! function a program and a certificate by rule, all words at one point, two whole numbers a node, and for each state a
//! template of its values and one of its errors, which a step keeps (`specs/CalmPlan.antt`). `calm_law`: it is accepted
//! whatever the rewriting rules are, with its demands; it rounds as was asked for; a text can spell both; and each
//! bound is at most `2^z` of the function's numbers.
//!
//! # Inside
//!
//! Nothing here runs. What a plan meets is said by a law over the definitions, so whoever makes it needs no check of
//! it. Templates of the calm plan are unit templates, each with the box that its state keeps, and one certificate
//! serves both ways to round. Sizes are exact fractions, and only their sums are compared with powers of two. The trap:
//! a comparison beside a fraction fits only where its denominator is narrow (`specs/Narrow`).
#![tactic(auto)]

ghost use Rattle.fx_plan_laws.specs.Searches.{FirstTrueLaw};
ghost use Rattle.fx_plan_laws.specs.CalmTest.{CalmTestLaw};
ghost use Rattle.fx_plan_laws.specs.CalmLaw.{CalmLaw};

/// A search finds the first place at which its test is true.
pub fn first_true_law()
    ensures { FirstTrueLaw }
{}

/// The test is the definition, whose searches have no end.
pub fn calm_test_law()
    ensures { CalmTestLaw }
{}

/// The calm plan of a calm function is accepted, a text can spell it, it rounds as is wanted, and each output's bound
/// is at most `2^z`.
pub fn calm_law()
    ensures { CalmLaw }
{}
