//! Rewriting: a function is changed in place by a step of a certificate, and keeps its meaning.
//!
//! # Contract
//!
//! `apply` changes a function in place: at Ok it is `rewrite` of the old one (`rewritten`), at a refusal it is the old
//! one (`same`), and NoPlace, NoMatch and TooLong come exactly where the place or the path leads nowhere, where the
//! rule's left side doesn't match the tree that is there, and where it matches and a limit isn't kept (`refused`);
//! Memory may come at any step. The code has the table of rules that the definitions have (`rule`). `SingleSteps` gives
//! the steps that are there one after the other, in the order of `single_steps` (`next`), without building a list.
//!
//! # Inside
//!
//! The rules are a table of patterns (`fx_model/specs/Rules.antt`), and contracts say by `fx_rules` what a step gives.
//! The code has the same table (`table.rt`), and interprets it: the letters of a left side are found in a tree by
//! reference (`found.rt`), and the right side is measured (`size.rt`) and built (`fill.rt`) with them, of copies where
//! a letter stands twice, else by moving what it stands for (`moving.rt`).
#![tactic(auto)]

mod change;
mod cursor;
mod fault;
mod fill;
mod first;
mod fold;
mod found;
mod judge;
mod matching;
mod moving;
mod pattern;
mod size;
mod successor;
mod table;

pub use change::apply;
pub use cursor::SingleSteps;
pub use fault::StepFault;
