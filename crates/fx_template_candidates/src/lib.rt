//! Which templates to propose for a certificate of a function with states, and with which bounds.
//!
//! # Contract
//!
//! `propose_templates` builds chains by `fx_template_reach`, closes them on the unit templates, on themselves or by
//! `fx_simplex`, and solves for all bounds together, from their fixed point outward, until one step keeps them. Where
//! chains alone lose too much or find no place, a ladder of rooms closes them on templates of poles too, and where that
//! isn't good either, chains of rising room are tried. It keeps its templates for a step that differs only in what
//! drives it. Nothing is promised of what is proposed, and whoever takes it tests it: `fx_template` with clauses,
//! `fx_state_search` by the checker.
//!
//! # Inside
//!
//! Each pole's plane is mapped to itself, so that a chain that is closed on templates of poles is followed only until
//! its other poles have faded.
#![tactic(auto)]

mod build;
mod chains;
mod ends;
mod image;
mod ladder;
mod left;
mod order;
mod propose;
mod rungs;
mod start;
mod system;
mod tries;

pub use propose::{Proposal, propose_templates, propose_templates_within};
