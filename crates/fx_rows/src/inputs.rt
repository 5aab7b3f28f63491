//! The inputs of a function, as a line gives them their values.
ghost use Rattle.std.specs.Prelude.{◌≡◌, ◌≤◌, length};
ghost use Rattle.fx_model.specs.Limits.{input_limit};

use crate::order::Order;
use fx_fraction::Range;

/// Where each input of a function stands in a line, and which values it may be given.
#[derive(Drop)]
pub(crate) struct InputColumns<'c> {
    /// The number of the column of each input.
    pub places: &'c [u32],
    /// Which values each input may be given.
    pub ranges: &'c [Range],
    /// The inputs in the order of their columns, where the quick way may be tried.
    pub order: &'c Order,
    ghost many: { length places.now ≡ length ranges.now },
    ghost few: { length ranges.now ≤ input_limit },
}
