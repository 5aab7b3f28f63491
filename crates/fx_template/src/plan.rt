//! What a search plans for a program.

use crate::affine::Affine;
use fx_num::{Dyadic, Interval};

/// All that a program and its certificate are made of, node by node.
#[derive(Debug, Drop)]
pub struct PlannedNodes {
    /// The width of a word.
    pub width: u32,
    /// Where the point of each node's word stands.
    pub points: Vec<i32>,
    /// Where each node's exact value lies.
    pub ranges: Vec<Interval>,
    /// Where the machine's value less the exact one lies.
    pub errors: Vec<Interval>,
    /// The form of each node that has one.
    pub forms: Vec<Option<Affine>>,
    /// Where the error less the form's sum over the variables' errors lies; of a node without a form, anything.
    pub error_rests: Vec<Interval>,
    /// Where the operands of a product with a form are centred; of another node, anything.
    pub centres: Vec<(Dyadic, Dyadic)>,
}
