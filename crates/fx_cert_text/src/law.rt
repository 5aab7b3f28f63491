//! What may be believed of the readers: each value has one text, and a text spells at most one value.
//!
//! Each function's contract is a law of the definitions in `specs/`, and its body is empty: nothing here runs.

ghost use Rattle.fx_cert_text.specs.Laws.{CertificateLaw, CertificateTakes, CertificateAgain, BundleLaw, BundleTakes, BundleAgain};

/// A certificate has one spelling at the front of a text, whatever follows it and whatever the number of its first
/// line.
pub fn certificate_law()
    ensures { CertificateLaw }
{}

/// A certificate has one text.
pub fn certificate_text_law()
    ensures takes { CertificateTakes }
    ensures again { CertificateAgain }
{}

/// A bundle has one spelling at the front of a text, whatever follows it.
pub fn bundle_law()
    ensures { BundleLaw }
{}

/// A bundle has one text.
pub fn bundle_text_law()
    ensures takes { BundleTakes }
    ensures again { BundleAgain }
{}
