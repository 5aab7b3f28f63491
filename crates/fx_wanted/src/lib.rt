//! What is asked of a synthesis.
//!
//! # Contract
//!
//! `Wanted` has the width, the tries and the way to round, from the words of a call to what is promised of its answer;
//! `IsLawfulWanted` says which may be asked for. One option more is one field more here.
//!
//! # Inside
//!
//! The trap: a search may be given fewer tries than were asked for, but what is promised of the attempts is promised of
//! all of them.
#![tactic(auto)]

mod wanted;

pub use fx_program::Round;
pub use wanted::{TRIES_LIMIT, Wanted};
