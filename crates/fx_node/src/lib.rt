//! Many units of one certified program: rows of all of them come interleaved, and each has a state of its own.
//!
//! # Contract
//!
//! `run_node` runs what is certified over rows of many units that come interleaved, each with a state of its own. What
//! is printed is the `node_page` of the events, each a row of one unit, that `events_read` gives, up to the first bad
//! line (`ends`, by `EndsRun` of `node_outcome`): for each event its unit's number, and the last outputs of the
//! machine's own run over that unit's rows so far. The rows of each unit are in range (`events_in_range_law`), and the
//! run over them is honest as that of `fx_run` (`honest`, and `units_law`, by `IsHonestRun`). The lines of a unit are a
//! matter of its own rows, whatever stands between them (`units_apart_law`), and are those of one run over all of them
//! (`unit_run_law`). A `UnitRuns` keeps for each unit that its state words are near some exact state; `turn` steps one
//! and leaves the others as they are (`turned`, `near`), and `unit_output` reads an output of a unit's last row.
//!
//! # Inside
//!
//! The order of reads and writes is `fx_stream`'s.
#![tactic(auto)]

mod fault;
mod law;
mod node;
mod printer;
mod run;

pub use fault::Flaw;
pub use fx_rows::UnitKind;
pub use law::{events_in_range_law, unit_run_law, units_apart_law, units_law};
pub use node::UnitRuns;
pub use run::{NodeFault, run_node};
