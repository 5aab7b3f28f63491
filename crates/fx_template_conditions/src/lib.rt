//! The conditions of a certificate that go by templates: bounds by shares of templates, one step that keeps a template,
//! and the start.
//!
//! # Contract
//!
//! `node_fault` is the first fault of a node's five conditions, with or without shares of templates;
//! `template_judgement`, `start_judgement` and `start_template_judgement` are what the comparisons of Row, ErrorRow and
//! Start come to. A `CertificateSide`, the values or the errors of a certificate, keeps in its type that its numbers
//! are short and its variables few. All other conditions are `fx_checker`'s.
//!
//! # Inside
//!
//! A combination of the variables begins with a rest and goes on with a coefficient times each; inputs stand by their
//! own intervals, states by shares of templates and, for what the shares leave, by the states' own templates. The trap:
//! shares are taken in the order in which they are written, since what fits depends on it.
#![tactic(auto)]

mod bound;
mod node;
mod quick;
mod share;
mod side;
mod start;
mod template;

pub use node::{first, node_fault};
pub use side::CertificateSide;
pub use start::{start_judgement, start_template_judgement};
pub use template::{template_bound_of, template_judgement};
