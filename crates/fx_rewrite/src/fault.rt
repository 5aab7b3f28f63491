//! Why a step is refused.
/// A refused step; the function stays as it was.
#[derive(Clone, Copy, Debug, PartialEq, Eq)]
pub enum StepFault {
    /// The place or the path leads nowhere.
    NoPlace,
    /// The rule's left side doesn't match, or there is no such rule.
    NoMatch,
    /// A folded literal, the nodes or a height would leave their limit.
    TooLong,
    /// There was no memory.
    Memory,
}
