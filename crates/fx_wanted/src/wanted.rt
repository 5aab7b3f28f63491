//! The width, the tries and the way to round that are asked for.

use fx_program::Round;

/// The most tries that can be asked for.
pub const TRIES_LIMIT: u32 = 100_000;

/// What is asked of a synthesis, beside its function.
#[derive(Clone, Copy, Debug, PartialEq, Eq)]
pub struct Wanted {
    /// Bits of a word: 8, 16, 24, 32, 40, 48, 56 or 64.
    pub width: u32,
    /// How many attempts are made at most, up to `TRIES_LIMIT`.
    pub tries: u32,
    /// How products and copies round where something is dropped.
    pub round: Round,
}
