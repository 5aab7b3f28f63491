//! Plans of a function at given points: words and errors, and what they cost.
//!
//! # Contract
//!
//! `find_plan` makes words and errors at given points, and what they cost. Nothing rests on what it finds:
//! `fx_stateless_search` calls it at each choice of points, `fx_state_search` as `find_plan_in`, and `check` judges
//! what is written of a plan.
//!
//! # Inside
//!
//! A search for small certified bounds tries many forms of a function. Each try is a few passes over its node list:
//! first the ranges (`fx_ranges`), then a point for each node, which is another crate's, then what stands here. What is
//! written of a plan is the business of `fx_writing`.
//!
//! - `find_plan` makes the codes at the points and their errors, by the checker's own formulas rounded outward once a
//!   node. Floors err to one side only, so the words of literals are worth choosing: once each is the nearest, once it
//!   is moved so that what it goes into has its error's middle at zero; and each output is tuned by the one literal
//!   whose slope promises most. Where an output leaves an end that is demanded, a literal that brings it back is moved
//!   first. The cheaper plan stands.
//! - Where words are too small for a range with its error, the plan names their nodes (`Plan::small`), and the caller
//!   takes coarser points. `Cost` orders plans, and what fails by how far it came.
//!
//! Each call takes linear time in nodes by inputs. A mantissa that leaves 128 bits ends the attempt, never the search.
//!
//! The traps: the error of a form is over its *cut* coefficients, so what was cut off counts in the errors too
//! (`cut_share`). And a literal that two nodes use isn't moved, since the first was worked out already.
#![tactic(auto)]

mod adjoint;
mod centre;
mod cost;
mod ends;
mod error;
mod node_error;
mod plan;
mod rounding;
mod setting;
mod tune;

pub use cost::{Cost, Goal, bound};
pub use error::Errors;
pub use plan::{Plan, find_plan, find_plan_in, move_word};
