//! What is known of a node before its point is chosen.

use fx_search_numbers::Rounded;

/// What the choice of points reads of a node beside the node list.
#[derive(Clone, Copy)]
pub struct NodeFacts {
    /// The greatest point at which its range fits the word: from -64 to 62, or below where no point is left.
    pub cap: i32,
    /// The greatest size of a number of its range.
    pub size: Rounded,
    /// The least size of a number of its range. Only a divisor's is read.
    pub least: Rounded,
    /// The error that an input is given with. Only an input's and a state's is read.
    pub error: Rounded,
}
