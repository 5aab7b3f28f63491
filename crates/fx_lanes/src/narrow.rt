//! Sixteen words of at most 32 bits side by side, and the operations of the machine on them.
//!
//! A `NarrowLanes<B>` can't hold anything but sixteen words of `B` bits. Each operation gives of each lane what the
//! machine's gives of its word. The trap: what lies on the way to a word is kept modulo 2^32, so that nothing but a
//! word may be read from it.

ghost use Rattle.fx_lanes.specs.WordsSideBySide.{IsNarrow};

use crate::side_by_side::SideBySide;
use crate::vectors::{Numbers32, Numbers64};
use fx_word::Word;
use std::marker::Model;

/// Sixteen words of `B` bits.
#[derive(Clone, Copy)]
pub struct NarrowLanes<const B: u32> {
    lanes: Numbers32,
}

impl<const B: u32> Model for NarrowLanes<B> {
    ghost use Rattle.std.specs.Prelude.{ℤ, List};
    ghost use Rattle.fx_lanes.specs.WordsSideBySide.{AreLanes};

    ghost Value = { List ℤ };

    ghost view = { λ w. w.lanes };

    ghost invariant = { λ w. AreLanes B w.lanes };

    ghost inverse = { λ z. record { lanes = z } };
}

impl<const B: u32> SideBySide<B> for NarrowLanes<B> {
    ghost HasRoom = { IsNarrow B };

    ghost words = { λ v. v };

    #[inline]
    fn splat(value: i64) -> NarrowLanes<B> {
        NarrowLanes {
            lanes: Numbers32::all(value as i32),
        }
    }

    #[inline]
    fn of(words: [i64; 16]) -> NarrowLanes<B> {
        NarrowLanes {
            lanes: Numbers64::of(words).narrowed(),
        }
    }

    #[inline]
    fn neg(self) -> NarrowLanes<B> {
        NarrowLanes {
            lanes: Numbers32::all(0).minus(self.lanes),
        }
    }

    #[inline]
    fn add_shifted(self, sa: i32, other: NarrowLanes<B>, sb: i32) -> NarrowLanes<B> {
        NarrowLanes {
            lanes: self.lanes.shifted(sa).plus(other.lanes.shifted(sb)),
        }
    }

    #[inline]
    fn sub_shifted(self, sa: i32, other: NarrowLanes<B>, sb: i32) -> NarrowLanes<B> {
        NarrowLanes {
            lanes: self.lanes.shifted(sa).minus(other.lanes.shifted(sb)),
        }
    }

    #[inline]
    fn mul_shift(self, other: NarrowLanes<B>, s: u32) -> NarrowLanes<B> {
        NarrowLanes {
            lanes: self.lanes.times(other.lanes).lowered(s).narrowed(),
        }
    }

    #[inline]
    fn mul_near(self, other: NarrowLanes<B>, s: u32) -> NarrowLanes<B> {
        NarrowLanes {
            lanes: self
                .lanes
                .times(other.lanes)
                .nearest_with_room(s)
                .narrowed(),
        }
    }

    #[inline]
    fn div_shift(self, other: NarrowLanes<B>, s: u32) -> NarrowLanes<B> {
        NarrowLanes {
            lanes: self.lanes.widely_raised(s).by(other.lanes).narrowed(),
        }
    }

    #[inline]
    fn copy_shift(self, s: i32) -> NarrowLanes<B> {
        NarrowLanes {
            lanes: self.lanes.shifted(s),
        }
    }

    #[inline]
    fn copy_near(self, s: u32) -> NarrowLanes<B> {
        NarrowLanes {
            lanes: self.lanes.nearest(s),
        }
    }

    #[inline]
    fn keeps(&self) {
        let _ = &self.lanes;
    }

    #[inline]
    fn word(&self, k: usize) -> Word<B> {
        Word::of(i64::from(self.lanes.at(k)))
    }
}
