//! Synthesis: a certified program for a function, at a width.
//!
//! # Contract
//!
//! `synthesise` answers what is certified for this very function, of its name, at the width and with the rounding given
//! (`found`, by `IsSynthesised`): with bounds as small as `promised_powers` says, of the plain plan where that serves
//! the function, else of the calm plan; where neither does, no worse than an accepted plain attempt at any output; and
//! no accepted attempt, plain or after one of the first single steps, has smaller bounds at all outputs. It answers so
//! wherever one of the two plans serves or one of these attempts is accepted, and where a search finds something:
//! `NotFound` says that neither plan serves and no attempt is accepted, and names what keeps the function out of the
//! class (`not_found`, by `IsUnfound`). What is found has passed `check`.
//!
//! # Inside
//!
//! The trap: both searches come last. The one over forms is given the bounds to keep of what stands already; what is
//! found of a function with states is compared with it afterwards.
#![tactic(auto)]

mod fault;
mod synthesis;

pub use fault::SynthFault;
pub use fx_moves::draw;
pub use fx_weight::Obstacle;
pub use synthesis::synthesise;
