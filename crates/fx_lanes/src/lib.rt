//! Rows side by side: the codes of a program without states carried out for sixteen rows at once.
//!
//! # Contract
//!
//! A program without states carries out each code for sixteen rows that lie one behind the other (`row_at`).
//! `step_lanes` asks that it isn't stuck in any of them, and the words of row k are then the lane k of its
//! `LaneRegisters` (`words`, by `lane`), without memory or refusal; `output` gives an output's word in a lane, and its
//! point. `put_at` puts a row in its place (`put`) and leaves the others (`others`). The step is written and proved
//! once, over any `SideBySide`: the operations of the machine on sixteen words. `NarrowLanes` has them in vectors of 32
//! bits, for words of up to as many, and `WideLanes` in vectors of 64, for all widths; there products and quotients go
//! lane by lane, by `Word`.
//!
//! # Inside
//!
//! A code is matched once for all sixteen rows. The trap: `B` doesn't choose what holds the words, so whoever calls
//! does.
#![tactic(auto)]

mod code;
mod lane_by_lane;
mod narrow;
mod rows;
mod run;
mod side_by_side;
mod step;
mod vectors;
mod wide;

pub use narrow::NarrowLanes;
pub use rows::put_at;
pub use run::run_lanes;
pub use side_by_side::SideBySide;
pub use step::{LaneRegisters, step_lanes};
pub use wide::WideLanes;
