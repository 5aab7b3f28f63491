//! Sixteen words of any width side by side, and the operations of the machine on them.
//!
//! A `WideLanes<B>` can't hold anything but sixteen words of `B` bits. Sums, differences, opposites and copies are made
//! of whole vectors. The trap: what lies on the way to such a word is kept modulo 2^64, so that nothing but a word may
//! be read from it.

ghost use Rattle.fx_word.specs.Words.{IsWidth};

use crate::lane_by_lane::{lowered_products, nearest_products, quotients};
use crate::side_by_side::SideBySide;
use crate::vectors::Numbers64;
use fx_word::Word;
use std::marker::Model;

/// Sixteen words of `B` bits.
#[derive(Clone, Copy)]
pub struct WideLanes<const B: u32> {
    lanes: Numbers64,
}

impl<const B: u32> Model for WideLanes<B> {
    ghost use Rattle.std.specs.Prelude.{ℤ, List};
    ghost use Rattle.fx_lanes.specs.WordsSideBySide.{AreLanes};

    ghost Value = { List ℤ };

    ghost view = { λ w. w.lanes };

    ghost invariant = { λ w. AreLanes B w.lanes };

    ghost inverse = { λ z. record { lanes = z } };
}

impl<const B: u32> SideBySide<B> for WideLanes<B> {
    ghost HasRoom = { IsWidth B };

    ghost words = { λ v. v };

    #[inline]
    fn splat(value: i64) -> WideLanes<B> {
        WideLanes {
            lanes: Numbers64::all(value),
        }
    }

    #[inline]
    fn of(words: [i64; 16]) -> WideLanes<B> {
        WideLanes {
            lanes: Numbers64::of(words),
        }
    }

    #[inline]
    fn neg(self) -> WideLanes<B> {
        WideLanes {
            lanes: Numbers64::all(0).minus(self.lanes),
        }
    }

    #[inline]
    fn add_shifted(self, sa: i32, other: WideLanes<B>, sb: i32) -> WideLanes<B> {
        WideLanes {
            lanes: self.lanes.shifted(sa).plus(other.lanes.shifted(sb)),
        }
    }

    #[inline]
    fn sub_shifted(self, sa: i32, other: WideLanes<B>, sb: i32) -> WideLanes<B> {
        WideLanes {
            lanes: self.lanes.shifted(sa).minus(other.lanes.shifted(sb)),
        }
    }

    #[inline]
    fn mul_shift(self, other: WideLanes<B>, s: u32) -> WideLanes<B> {
        let v = self.lanes.array();
        let w = other.lanes.array();
        WideLanes {
            lanes: Numbers64::of(lowered_products::<B>(&v, &w, s)),
        }
    }

    #[inline]
    fn mul_near(self, other: WideLanes<B>, s: u32) -> WideLanes<B> {
        let v = self.lanes.array();
        let w = other.lanes.array();
        WideLanes {
            lanes: Numbers64::of(nearest_products::<B>(&v, &w, s)),
        }
    }

    #[inline]
    fn div_shift(self, other: WideLanes<B>, s: u32) -> WideLanes<B> {
        let v = self.lanes.array();
        let w = other.lanes.array();
        WideLanes {
            lanes: Numbers64::of(quotients::<B>(&v, s, &w)),
        }
    }

    #[inline]
    fn copy_shift(self, s: i32) -> WideLanes<B> {
        WideLanes {
            lanes: self.lanes.shifted(s),
        }
    }

    #[inline]
    fn copy_near(self, s: u32) -> WideLanes<B> {
        WideLanes {
            lanes: self.lanes.nearest(s),
        }
    }

    #[inline]
    fn keeps(&self) {
        let _ = &self.lanes;
    }

    #[inline]
    fn word(&self, k: usize) -> Word<B> {
        Word::of(self.lanes.array()[k])
    }
}
