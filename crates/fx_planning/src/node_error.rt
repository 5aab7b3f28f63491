//! What the second pass says of one node.

use fx_search_numbers::{FixedInterval, MaybeInterval};

/// What is said of one node.
#[derive(Clone, Copy)]
pub struct NodeError {
    /// The error.
    pub span: FixedInterval,
    /// The rest of its form, or the error again.
    pub rest: FixedInterval,
    /// Whether the form shows the error.
    pub is_shown: bool,
}

impl NodeError {
    /// An error without a form, if there is one.
    pub fn plain(error: MaybeInterval) -> Option<NodeError> {
        match error.get() {
            Some(span) => Some(NodeError {
                span,
                rest: span,
                is_shown: false,
            }),
            None => None,
        }
    }

    /// The error of a variable, whose form is itself, if there is one.
    pub fn of_variable(error: MaybeInterval) -> Option<NodeError> {
        match error.get() {
            Some(span) => Some(NodeError {
                span,
                rest: FixedInterval::ZERO,
                is_shown: false,
            }),
            None => None,
        }
    }

    /// The narrower of a plain error and a form's with its rest.
    pub fn narrower(
        plain: FixedInterval,
        by_form: FixedInterval,
        rest: FixedInterval,
    ) -> Option<NodeError> {
        match by_form.is_narrower(plain) {
            Some(is_shown) => Some(NodeError {
                span: if is_shown { by_form } else { plain },
                rest,
                is_shown,
            }),
            None => None,
        }
    }
}
