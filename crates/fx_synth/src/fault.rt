//! Why nothing was found.

use fx_num::Memory;
use fx_weight::Obstacle;
use std::error::Error;
use std::fmt;

/// Why nothing was found.
#[derive(Clone, Copy, Debug, PartialEq, Eq)]
pub enum SynthFault {
    /// Neither plan serves the function, and no attempt is accepted; this keeps it from the plain plan.
    NotFound {
        /// The first node that isn't modest, else the first output that has a demanded end or too small a demanded
        /// error.
        obstacle: Obstacle,
    },
    /// No memory was left.
    Memory,
}

impl fmt::Display for SynthFault {
    fn fmt<W: fmt::Write>(&self, f: &mut fmt::Formatter<W>) -> fmt::Result {
        match self {
            SynthFault::NotFound {
                obstacle: Obstacle::Node { node },
            } => write!(f, "not found: node {node}"),
            SynthFault::NotFound {
                obstacle: Obstacle::Demand { output },
            } => write!(f, "not found: output {output}"),
            SynthFault::Memory => write!(f, "out of memory"),
        }
    }
}

impl Error for SynthFault {}

impl From<Memory> for SynthFault {
    ghost use Rattle.std.specs.Prelude.{◌≡◌};
    ghost use Rattle.fx_synth.specs.declared.fault.SynthFault.TheVariants as fault;

    ghost from_gives = { λ e f. f ≡ fault.Memory };

    fn from(_e: Memory) -> SynthFault {
        SynthFault::Memory
    }
}
