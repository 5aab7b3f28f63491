//! Certificates and bundles as texts, printed and read.
//!
//! # Contract
//!
//! `print_certificate` and `print_bundle` give the one text of a lawful value (`text`). `read_certificate` and
//! `read_bundle` give the value that the text spells or its first fault, with its kind and line, but for want of memory
//! (`value`, by `certificate_in` and `bundle_in`), and what they give is lawful (`lawful`). By `certificate_law`,
//! `certificate_text_law`, `bundle_law` and `bundle_text_law` what is read is spelled so, and what is lawful is read
//! from its text.
//!
//! # Inside
//!
//! Lists grow as their lines come: a count costs nothing that no line stands behind. The traps: lines are numbered in
//! the text that the call was given, so a bundle's readers are told where they begin; and what is printed of a
//! certificate that isn't lawful is no text of a certificate.
#![tactic(auto)]

mod bundle;
mod bundle_text;
mod law;
mod lines;
mod path;
mod print;
mod print_line;
mod read;
mod read_line;
mod share;

pub use bundle::Bundle;
pub use bundle_text::read_bundle;
pub use law::{bundle_law, bundle_text_law, certificate_law, certificate_text_law};
pub use print::{print_bundle, print_certificate};
pub use read::{certificate_at, read_certificate};
