//! The limits of functions, programs and certificates, each once, as `fx_model/specs/Limits.antt` defines them.
//!
//! They stand here since every reader, judge and search stands on this crate. The limits of a command's own files and
//! rows are that command's.

/// The most inputs.
pub const INPUT_LIMIT: u32 = 64;

/// The most states.
pub const STATE_LIMIT: u32 = 32;

/// The most outputs.
pub const OUTPUT_LIMIT: u32 = 64;

/// The most temps.
pub const TEMP_LIMIT: u32 = 1000;

/// The most nodes of a function, codes of a program and lines of a certificate.
pub const NODE_LIMIT: u32 = 4000;

/// The height of the highest tree, and how many parentheses may be open.
pub const HEIGHT_LIMIT: u32 = 200;

/// The least binary point.
pub const LEAST_POINT: i32 = -64;

/// The greatest binary point.
pub const GREATEST_POINT: i32 = 62;

/// The most rewriting steps.
pub const STEP_LIMIT: u32 = 10_000;

/// The place of a step is below this.
pub const PLACE_END: u32 = 2000;

/// The most templates, and the most error templates.
pub const TEMPLATE_LIMIT: u32 = 512;

/// The most binary places of a number that a text spells.
pub const EXPONENT_LIMIT: u32 = 96;

/// The most bytes of a source.
pub const SOURCE_LIMIT: u32 = 1_048_576;
