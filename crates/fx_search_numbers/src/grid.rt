//! Grids: how many binary places a range or an error is kept with.
//!
//! A range has a grid of its own, by its greater end; an error's grid lies so many places behind its node's point. The
//! finer they are, the less is lost by rounding outward, and the sooner a formula of the checker leaves 128 bits.

use crate::fixed_interval::FixedInterval;
use fx_num::bits;

/// How long the numbers of an attempt are.
#[derive(Clone, Copy, Debug, PartialEq, Eq)]
pub struct Grids {
    /// About how many bits the greater end of a range has.
    pub range_bits: u32,
    /// How many places an error has behind its node's point.
    pub error_places: u32,
    /// How many bits a form's coefficient has at most,
    pub coefficient_bits: u32,
    /// and how many the centre of a product's operand.
    pub centre_bits: u32,
    /// The most binary places of a range, a form's rest and a coefficient.
    pub place_limit: u32,
}

impl Grids {
    /// The finest, which nearly always fit.
    pub const FINE: Grids = Grids {
        range_bits: 44,
        error_places: 12,
        coefficient_bits: 40,
        centre_bits: 30,
        place_limit: 60,
    };

    /// Those to take next, where a formula of the checker leaves 128 bits.
    pub const COARSE: Grids = Grids {
        range_bits: 36,
        error_places: 8,
        ..Grids::FINE
    };

    /// The coarsest of ranges and errors, with coefficients that are as long as ever.
    pub const COARSEST: Grids = Grids {
        range_bits: 28,
        error_places: 6,
        ..Grids::FINE
    };

    /// Those of short coefficients, where a small one made numbers too long: it is cut to few bits or to zero, and what
    /// is cut off goes to the rest.
    pub const SHORT: Grids = Grids {
        range_bits: 36,
        error_places: 8,
        coefficient_bits: 28,
        centre_bits: 24,
        place_limit: 40,
    };

    /// A grid on which the greater end of a range has about as many bits as are wanted.
    pub fn places_of(self, range: FixedInterval) -> u32 {
        self.range_bits
            .saturating_add(range.e)
            .saturating_sub(bits(range.size()))
            .min(self.place_limit)
    }

    /// The range on its own grid.
    pub fn rounded(self, range: FixedInterval) -> FixedInterval {
        range.outward(self.places_of(range))
    }

    /// The grid of an error at a point.
    pub fn error_places_at(self, point: i32) -> u32 {
        let places = i64::from(point).saturating_add(i64::from(self.error_places));
        places.clamp(0, 126) as u32
    }
}
