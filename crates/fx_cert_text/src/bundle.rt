//! A bundle.

use fx_cert::Certificate;
use fx_expr::Items;
use fx_program::Program;

/// A source, a program and a certificate, as one text holds them.
#[derive(Drop)]
pub struct Bundle {
    /// The source's bytes, which no one has read yet.
    pub source: Items<u8>,
    /// The program.
    pub program: Program,
    /// The certificate, which a reader gives lawful.
    pub certificate: Certificate,
}
