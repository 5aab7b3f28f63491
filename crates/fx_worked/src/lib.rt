//! Worked rows and calls: definitions at values that were worked out elsewhere, and calls that no command makes.
//!
//! # Contract
//!
//! It promises nothing, and no crate stands on it, so that a row more has none proved anew. Rows: definitions of
//! numbers, intervals, words and judgements at values of a program in another language, the cells behind a step, the
//! fault of a refused rewriting step, and which filters are calm, proved by evaluation. Tests: where there is memory,
//! calls that no command makes answer, with values that were worked out by hand or in another language.
//!
//! # Inside
//!
//! A row of `proofs/` names a definition, its arguments and its value, so that the gate refuses a wrong definition.
//! Want of memory is an answer of each call that allocates, and no clause can rule it out: a body that always gives it
//! would be proved, and the cases of `fixd` wouldn't show it where no command makes the call. So the tests of `src/`, a
//! file for each crate whose calls they make, make each such call once.
#![tactic(auto)]

#[cfg(test)]
mod affine;
#[cfg(test)]
mod analysis;
#[cfg(test)]
mod base;
#[cfg(test)]
mod fraction;
#[cfg(test)]
mod program;
#[cfg(test)]
mod rows;
#[cfg(test)]
mod sources;
#[cfg(test)]
mod template;
#[cfg(test)]
mod weight;
