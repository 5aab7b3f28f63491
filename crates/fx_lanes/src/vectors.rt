//! Vectors of sixteen whole numbers, of 32 and of 64 bits, and what their operators give of each lane.
//!
//! Sums, differences and shifts to the left are modulo 2^32 and 2^64, which is exact where their end is a word.

ghost use Rattle.std.specs.Prelude.{◌≡◌, ◌≤◌, ◌<◌, ◌^◌, map, All, pos, ◌+ℤ◌, ◌-ℤ◌, ◌*ℤ◌, int_div, replicate, FitsSigned};
ghost use Rattle.std.specs.Int.{int_wrap, w32, w64};
ghost use Rattle.std.specs.Simd.Lanes.{zip2};
ghost use Rattle.fx_rational.specs.Rational.{floor_div};
ghost use Rattle.fx_model.specs.LawfulProgram.{IsShift};
ghost use Rattle.fx_model.specs.Machine.{Nearest, half, shifted, rounded};
ghost use Rattle.fx_model.specs.Tree.{at};
ghost use Rattle.fx_lanes.specs.WordsSideBySide.{AreNumbers, CanDivide};

use fx_num::short_two_to;
use std::marker::Model;
use std::simd::prelude::*;

/// Sixteen whole numbers of 32 bits.
#[derive(Clone, Copy)]
pub(crate) struct Numbers32 {
    lanes: i32x16,
}

impl Model for Numbers32 {
    ghost use Rattle.std.specs.Prelude.{ℤ, List};
    ghost use Rattle.std.specs.Int.{w32};
    ghost use Rattle.fx_lanes.specs.WordsSideBySide.{AreNumbers};

    ghost Value = { List ℤ };

    ghost view = { λ v. v.lanes };

    ghost invariant = { λ v. AreNumbers w32 v.lanes };

    ghost inverse = { λ z. record { lanes = z } };
}

/// Sixteen whole numbers of 64 bits.
#[derive(Clone, Copy)]
pub(crate) struct Numbers64 {
    lanes: i64x16,
}

impl Model for Numbers64 {
    ghost use Rattle.std.specs.Prelude.{ℤ, List};
    ghost use Rattle.std.specs.Int.{w64};
    ghost use Rattle.fx_lanes.specs.WordsSideBySide.{AreNumbers};

    ghost Value = { List ℤ };

    ghost view = { λ v. v.lanes };

    ghost invariant = { λ v. AreNumbers w64 v.lanes };

    ghost inverse = { λ z. record { lanes = z } };
}

impl Numbers32 {
    /// One number, in each lane.
    #[inline]
    pub(crate) fn all(x: i32) -> Numbers32
        ensures { result ≡ replicate 16 x }
    {
        Numbers32 {
            lanes: i32x16::splat(x),
        }
    }

    /// The number in lane `k`.
    #[inline]
    pub(crate) fn at(self, k: usize) -> i32
        requires { k < 16 }
        ensures { result ≡ at (pos 0) self k }
    {
        self.lanes.to_array()[k]
    }

    /// The sums.
    #[inline]
    pub(crate) fn plus(self, other: Numbers32) -> Numbers32
        ensures { result ≡ zip2 (λ x y. int_wrap w32 (x +ℤ y)) self other }
    {
        Numbers32 {
            lanes: self.lanes + other.lanes,
        }
    }

    /// The differences.
    #[inline]
    pub(crate) fn minus(self, other: Numbers32) -> Numbers32
        ensures { result ≡ zip2 (λ x y. int_wrap w32 (x -ℤ y)) self other }
    {
        Numbers32 {
            lanes: self.lanes - other.lanes,
        }
    }

    /// Each shifted to the right.
    #[inline]
    fn lowered(self, s: u32) -> Numbers32
        requires { s < 32 }
        ensures lowered { result ≡ map (λ x. floor_div x (2 ^ s)) self }
        ensures fits { All (FitsSigned w32) self }
    {
        Numbers32 {
            lanes: self.lanes >> i32x16::splat(s as i32),
        }
    }

    /// Each shifted to the left.
    #[inline]
    fn raised(self, s: u32) -> Numbers32
        requires { s < 31 }
        ensures { result ≡ map (λ x. int_wrap w32 (x *ℤ pos (2 ^ s))) self }
    {
        Numbers32 {
            lanes: self.lanes << i32x16::splat(s as i32),
        }
    }

    /// Each shifted to the right by `s`, or to the left by `-s`.
    #[inline]
    pub(crate) fn shifted(self, s: i32) -> Numbers32
        requires { IsShift 32 s }
        ensures { result ≡ map (λ x. int_wrap w32 (shifted x s)) self }
    {
        if 0 <= s && s < 32 {
            self.lowered(s as u32)
        } else if s >= 32 {
            self.lowered(31)
        } else if s > -31 {
            self.raised(s.unsigned_abs())
        } else {
            // 2^31 is no number of 32 bits
            self.raised(16).raised(s.unsigned_abs() - 16)
        }
    }

    /// The whole number nearest to each by 2^s, of two as near the greater.
    // the greatest has no room for one more: what the bit behind the point doesn't carry is taken away
    #[inline]
    pub(crate) fn nearest(self, s: u32) -> Numbers32
        requires low { 1 ≤ s }
        requires high { s ≤ 32 }
        ensures { result ≡ map (λ x. rounded Nearest x (pos s)) self }
    {
        let twice = self.lowered(s - 1);
        twice.minus(twice.lowered(1))
    }

    /// The products.
    #[inline]
    pub(crate) fn times(self, other: Numbers32) -> Numbers64
        ensures { result ≡ zip2 (λ x y. x *ℤ y) self other }
    {
        Numbers64 {
            lanes: self.lanes.cast::<i64>() * other.lanes.cast::<i64>(),
        }
    }

    /// Each shifted to the left, in 64 bits.
    #[inline]
    pub(crate) fn widely_raised(self, s: u32) -> Numbers64
        requires { s ≤ 32 }
        ensures { result ≡ map (λ x. x *ℤ pos (2 ^ s)) self }
    {
        Numbers64 {
            lanes: self.lanes.cast::<i64>() << i64x16::splat(s as i64),
        }
    }
}

impl Numbers64 {
    /// These numbers.
    #[inline]
    pub(crate) fn of(numbers: [i64; 16]) -> Numbers64
        requires { AreNumbers w64 numbers }
        ensures { result ≡ numbers }
    {
        Numbers64 {
            lanes: i64x16::from_array(numbers),
        }
    }

    /// The numbers.
    #[inline]
    pub(crate) fn array(self) -> [i64; 16]
        ensures { result ≡ self }
    {
        self.lanes.to_array()
    }

    /// One number, in each lane.
    #[inline]
    pub(crate) fn all(x: i64) -> Numbers64
        ensures { result ≡ replicate 16 x }
    {
        Numbers64 {
            lanes: i64x16::splat(x),
        }
    }

    /// The sums.
    #[inline]
    pub(crate) fn plus(self, other: Numbers64) -> Numbers64
        ensures { result ≡ zip2 (λ x y. int_wrap w64 (x +ℤ y)) self other }
    {
        Numbers64 {
            lanes: self.lanes + other.lanes,
        }
    }

    /// The differences.
    #[inline]
    pub(crate) fn minus(self, other: Numbers64) -> Numbers64
        ensures { result ≡ zip2 (λ x y. int_wrap w64 (x -ℤ y)) self other }
    {
        Numbers64 {
            lanes: self.lanes - other.lanes,
        }
    }

    /// Each shifted to the right.
    #[inline]
    pub(crate) fn lowered(self, s: u32) -> Numbers64
        requires { s < 64 }
        ensures lowered { result ≡ map (λ x. floor_div x (2 ^ s)) self }
        ensures fits { All (FitsSigned w64) self }
    {
        Numbers64 {
            lanes: self.lanes >> i64x16::splat(s as i64),
        }
    }

    /// Each shifted to the left.
    #[inline]
    fn raised(self, s: u32) -> Numbers64
        requires { s < 63 }
        ensures { result ≡ map (λ x. int_wrap w64 (x *ℤ pos (2 ^ s))) self }
    {
        Numbers64 {
            lanes: self.lanes << i64x16::splat(s as i64),
        }
    }

    /// Each shifted to the right by `s`, or to the left by `-s`.
    #[inline]
    pub(crate) fn shifted(self, s: i32) -> Numbers64
        requires { IsShift 64 s }
        ensures { result ≡ map (λ x. int_wrap w64 (shifted x s)) self }
    {
        if 0 <= s && s < 64 {
            self.lowered(s as u32)
        } else if s >= 64 {
            self.lowered(63)
        } else if s > -63 {
            self.raised(s.unsigned_abs())
        } else {
            // 2^63 is no number of 64 bits
            self.raised(32).raised(s.unsigned_abs() - 32)
        }
    }

    /// The whole number nearest to each by 2^s, of two as near the greater.
    // the greatest has no room for one more: what the bit behind the point doesn't carry is taken away
    #[inline]
    pub(crate) fn nearest(self, s: u32) -> Numbers64
        requires low { 1 ≤ s }
        requires high { s ≤ 64 }
        ensures { result ≡ map (λ x. rounded Nearest x (pos s)) self }
    {
        let twice = self.lowered(s - 1);
        twice.minus(twice.lowered(1))
    }

    /// The whole number nearest to each by 2^s, of two as near the greater, where each has room for a half.
    #[inline]
    pub(crate) fn nearest_with_room(self, s: u32) -> Numbers64
        requires low { 1 ≤ s }
        requires high { s < 64 }
        requires room { All (FitsSigned w64) (map (λ x. x +ℤ half (pos s)) self) }
        ensures { result ≡ map (λ x. rounded Nearest x (pos s)) self }
    {
        let _lanes = &self.lanes;
        self.plus(Numbers64::all(short_two_to(s - 1))).lowered(s)
    }

    /// The quotients, rounded toward zero.
    #[inline]
    pub(crate) fn by(self, other: Numbers32) -> Numbers64
        requires { CanDivide self other }
        ensures { result ≡ zip2 int_div self other }
    {
        Numbers64 {
            lanes: self.lanes / other.lanes.cast::<i64>(),
        }
    }

    /// Each in 32 bits.
    #[inline]
    pub(crate) fn narrowed(self) -> Numbers32
        requires { All (FitsSigned w32) self }
        ensures { result ≡ self }
    {
        Numbers32 {
            lanes: self.lanes.cast::<i32>(),
        }
    }
}
