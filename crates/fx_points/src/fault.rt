//! Why a function has no points.
use fx_num::Memory;
use std::alloc::AllocFailed;

/// Why a function has no points.
#[derive(Clone, Copy)]
pub enum PointFault {
    /// No point is left at this node, the first of such.
    NoPoint { node: usize },
    /// No memory was left.
    Memory,
}

impl From<Memory> for PointFault {
    ghost use Rattle.std.specs.Prelude.{◌≡◌};
    ghost use Rattle.fx_points.specs.declared.fault.PointFault.TheVariants as fault;

    ghost from_gives = { λ e f. f ≡ fault.Memory };

    fn from(_e: Memory) -> PointFault {
        PointFault::Memory
    }
}

impl<T: Drop> From<AllocFailed<T>> for PointFault {
    ghost use Rattle.std.specs.Prelude.{◌≡◌};
    ghost use Rattle.fx_points.specs.declared.fault.PointFault.TheVariants as fault;

    ghost from_gives = { λ e f. f ≡ fault.Memory };

    fn from(_e: AllocFailed<T>) -> PointFault {
        PointFault::Memory
    }
}
