//! A certified program over the rows of a source: the headline, over bytes.
//!
//! # Contract
//!
//! `run_rows` runs what is certified over a source and a sink. What is printed is the page of the machine's own run
//! over the rows that `read_rows` gives, each answer before the source is asked for more (`ends`, by `EndsRun` of
//! `run_outcome`); on the rows of any input that run isn't stuck, each word lies in the least width that the
//! certificate gives its code, each printed value keeps the ends that the source demands, and for all rows that may be
//! the true ones the exact run is there and each output within its certified bound (`honest`, and `rows_law`, by
//! `IsHonestRun`). The state goes on from row to row. A program without states has its rows held back until there are
//! sixteen or the source is to be asked: four and more go through it side by side (`HeldStep`, over `step_lanes` of
//! `fx_lanes`), fewer one after the other; nothing of that is seen but how fast it is.
//!
//! # Inside
//!
//! The order of reads and writes is `fx_stream`'s, and that the machine isn't stuck is the soundness theorem's; here
//! the two meet.
#![tactic(auto)]

mod block;
mod held;
mod lanes;
mod law;
mod run;
mod step;
mod words;

pub use law::rows_law;
pub use run::{RunFault, run_rows};
pub use words::{StepWords, put_header, put_words};
