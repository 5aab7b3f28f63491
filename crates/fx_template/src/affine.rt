//! Affine forms, and why two have no sum or product.

use crate::coefs::Coefs;
use fx_num::{Interval, Memory};
use std::error::Error;
use std::fmt;

/// An affine form over the variables, which are the inputs and the states.
#[derive(Debug, Drop)]
pub struct Affine {
    /// A coefficient for each variable.
    pub coefs: Coefs,
    /// Where the value less the coefficients' sum lies.
    pub rest: Interval,
}

/// Why there is no form.
#[derive(Clone, Copy, Debug, PartialEq, Eq)]
pub enum AffineFault {
    /// A mantissa would leave 128 bits.
    Beyond,
    /// There was no memory.
    Memory,
}

impl fmt::Display for AffineFault {
    fn fmt<W: fmt::Write>(&self, f: &mut fmt::Formatter<W>) -> fmt::Result {
        f.write_str(match self {
            AffineFault::Beyond => "a number leaves 128 bits",
            AffineFault::Memory => "out of memory",
        })
    }
}

impl Error for AffineFault {}

impl From<Memory> for AffineFault {
    ghost use Rattle.std.specs.Prelude.{◌≡◌};
    ghost use Rattle.fx_template.specs.declared.affine.AffineFault.TheVariants as fault;

    ghost from_gives = { λ e f. f ≡ fault.Memory };

    fn from(_e: Memory) -> AffineFault {
        AffineFault::Memory
    }
}
