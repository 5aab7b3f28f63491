//! The tokens of a source text, or its first lexical fault.
//!
//! # Contract
//!
//! `tokens` gives exactly the tokens of the definition (`tokens_of`: kind, text, place, and whether it is the first on
//! its line) or its first lexical fault, but for want of memory (`value`). Laws tie the definition to what a reader has
//! in mind. `layout_law`: a text has these tokens exactly where it consists, in any order, of gaps (blanks, comments to
//! the end of the line, comments that nest by their grammar) and of tokens, each the longest at its place.
//! `places_law`: places rise, a token's text is the text's own there, and it is what its kind says (a name, a number
//! that some decimal has, a reserved word, a sign). `fault_law`: a fault of the definition is lexical and lies in the
//! text or at its end. `SourceFault` and `SourceKind` name the faults of the lexer and of the parser.
//!
//! # Inside
//!
//! A text is cut from its front: a blank, a comment or the longest token stands there, and then the rest follows. So
//! nothing is looked at again from its front, comments nest by a counter, and nothing recurs. `specs/Tokens.antt` says
//! what the tokens are, over lists of bytes; `tokens` gives exactly these.
//!
//! The trap: an unclosed comment is found at the text's end, every other fault at the front of the item that has it.
#![tactic(auto)]

mod byte;
mod comment;
mod fault;
mod item;
mod law;
mod number;
mod sign;
mod token;
mod word;

pub use fault::{SourceFault, SourceKind};
pub use law::{fault_law, layout_law, places_law};
pub use token::{Token, TokenKind, tokens};
