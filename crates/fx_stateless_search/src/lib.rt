//! The search for a small certified bound: many forms of a function are tried, and the best is certified.
//!
//! # Contract
//!
//! `search` tries as many forms of a function without states as it is asked for, fewer of one with more than 500 nodes.
//! Its answer has the clause of `fx_state_search`'s: it has passed `fx_checker::check`, and the function, its name, the
//! width and how codes round are those that were asked for. How small its bounds are, no clause says.
//!
//! # Inside
//!
//! A draft (`fx_moves`) is the function after some rewriting steps; an attempt gives it ranges by `fx_ranges`, points
//! by `fx_points` and errors by `fx_planning`, and its cost is one number to be lowered. All that is decided is drawn
//! from one seeded generator by `draw`, and no number has a floating point, so that a seed gives one answer on every
//! machine.
//!
//! - The first try is the function as it stands. Each further try looks at some drafts. The first of these begin at it
//!   too: cleaned, with common factors taken out at random, and in directed forms.
//! - Then it climbs (`climb`), by random moves from the current draft. A draft that costs up to a tenth more may be
//!   taken up too, and after some drafts without gain one of the best is (`front`). Where there is no plan, the draft
//!   that fails further on is the cheaper one. There are two climbs: a wide one, by up to six moves a draft and a
//!   thousand steps, and beside it a narrow one, by up to three moves and 64 steps, with one draft a try. The wide one
//!   finds more, and now and then the narrow one finds what it passes by.
//! - A function that was tried before isn't tried again, whichever draft led to it (`seen`).
//! - After 1, 2, 5, 10, 20, .. tries the best are polished (`polish`), each point, each word and the centres of each
//!   product moved by a little (`nudge`), and written. Where the checker or a text refuses it, its numbers left 128
//!   bits, and it is made again on coarser grids (`certify`).
//!
//! What is certified stays until it is bettered, and no try depends on how many follow, so more tries give no worse
//! answer.
//!
//! The trap: a draft's steps are for the source's function, and its nodes for its own.
#![tactic(auto)]

mod attempt;
mod best;
mod certify;
mod climb;
mod front;
mod nudge;
mod polish;
mod searching;
mod seen;
mod task;

pub use fx_moves::draw;
pub use searching::search;
