//! Rewriting steps as data, as a certificate lists them.
//!
//! # Contract
//!
//! A `Step` is a tree's place, a path in it and a rule's number, as a certificate lists them; contracts see it as the
//! record of the definitions (`step_view`). What it does to a function is `fx_rewrite`'s, and nothing here asks that it
//! does anything.
//!
//! # Inside
//!
//! Who only writes or keeps certificates needs no rule. The trap: a step need not lead anywhere. Whether its place, its
//! path and its rule are there, who applies it finds out.
#![tactic(auto)]

mod step;

pub use step::{RULE_COUNT, Step, copied_steps};
