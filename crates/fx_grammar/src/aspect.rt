//! What a condition says of an input or an output.

/// What a condition says of an input, or a demand of an output.
#[derive(Clone, Copy, Debug, PartialEq, Eq)]
pub enum Aspect {
    /// Its lower end.
    Low,
    /// Its upper end.
    High,
    /// By how much it may be wrong.
    Error,
}
