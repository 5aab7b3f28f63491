//! Drafts of a function, and random moves from one to another.
//!
//! # Contract
//!
//! A `Draft` is a function after some rewriting steps; `mutate`, `factor_all`, `form` and `clean_all` change it by
//! steps that `apply` makes, so it is lawful by its type, and nothing else is promised of it. It has room for as many
//! steps as its `Limits` say: 1,024, of which 64 are drawn at random from where it was taken up, or 64 in all. Its
//! steps are a `Trail`, with all paths in one vector. `draw` is the generator's next word modulo the number of choices
//! that it is given (`value`) and leaves the rest of its stream (`rest`); every choice goes through it.
//!
//! # Inside
//!
//! A draft is a function with the steps of `fx_rewrite` that led to it from its source. Rewriting changes nothing of
//! what a function means over the rationals, and much of what its rounding costs, so a search looks for the best draft.
//!
//! - `factor_all` begins at the source: literals are folded, and common factors taken out in a random order until none
//!   is left (`factor`, `cleaning`). That alone mostly brings the greatest gain.
//! - `form` begins at the source too, and draws nothing: all is expanded, and the variables are taken out in one of
//!   some orders, which gives Horner's scheme by each of them (`forms`, `orders`).
//! - `mutate` makes some random moves, up to as many as it is asked for. A move is a few rules at one place (`moves`,
//!   `factor`, `cleaning`), or any one rule (`mutation`).
//!
//! A form and a cleaning follow a rule, and draw no step.
//!
//! A seed gives the same drafts on every machine. Whoever certifies a draft has its steps made again.
//!
//! The traps: a rule that matches may be refused at a limit, so a move can end in its middle; what was done stays, and
//! is a draft as good as any. And a step that undoes an earlier one takes that away only where no step between them is
//! at a tree above or below it.
#![tactic(auto)]

mod cleaning;
mod draft;
mod drawing;
mod expand;
mod factor;
mod forms;
mod moves;
mod mutation;
mod orders;
mod rule;
mod site;
mod take_out;
mod trail;

pub use cleaning::clean_all;
pub use draft::{Draft, Limits};
pub use drawing::draw;
pub use mutation::{factor_all, mutate};
pub use orders::form;
pub use trail::Trail;
