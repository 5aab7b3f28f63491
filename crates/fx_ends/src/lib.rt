//! How a call of `fixd` ends: one end, with its status and its line on the notes.
//!
//! # Contract
//!
//! An `End` has one status and, but where all is done, one line on the notes; of a fault that has them the line tells
//! kind and place (`specs/Ends.antt`, `specs/KindTexts.antt`). `finish` answers that status (`status`) and writes that
//! line, if there is one, or a front of it where the notes fail (`line`).
//!
//! # Inside
//!
//! All commands end in these ways, so that a status means one thing. `specs/Ends.antt` has both, and `finish` does what
//! it says. What has to hold where a call ends so is each command's own matter. The trap: a new end is a variant here
//! and in `specs/Ends.antt`, with a status that no other has.
#![tactic(auto)]

mod end;
mod kind;
mod notes;

pub use end::{End, Place};
pub use notes::put_pieces;
