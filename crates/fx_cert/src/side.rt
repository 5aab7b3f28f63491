//! Values and errors, of which the conditions by templates say the same.

ghost use Rattle.std.specs.Prelude.{◌≡◌};
ghost use Rattle.fx_inequalities.specs.Formula.{span};
ghost use Rattle.fx_inequalities.specs.Affine.{affine_at};
ghost use Rattle.fx_cert.specs.CertificateView.{lines_view};
ghost use Rattle.fx_cert.specs.Sides.{side_at, side_rest};

use crate::certificate::NodeLine;
use crate::lookup::{affine_error_rest, affine_rest, error_at, range_at};
use fx_num::Interval;

/// Which of the two.
#[derive(Clone, Copy)]
pub enum Side {
    /// The exact value.
    Value,
    /// The machine's value less the exact one.
    Error,
}

/// Where that of node `n` lies.
pub fn side_at(side: &Side, lines: &[NodeLine], n: u32) -> Interval
    ensures { span result ≡ side_at side.now (lines_view lines.now) n }
{
    match side {
        Side::Value => range_at(lines, n),
        Side::Error => error_at(lines, n),
    }
}

/// The rest of it of the form of node `n`.
pub fn side_rest(side: &Side, lines: &[NodeLine], variables: u32, n: u32) -> Interval
    ensures { span result ≡ side_rest side.now (affine_at variables (lines_view lines.now) n) }
{
    match side {
        Side::Value => affine_rest(lines, variables, n),
        Side::Error => affine_error_rest(lines, variables, n),
    }
}
