//! Sixteen words side by side, and the operations of the machine on them.
//!
//! The step is written and proved once over any type that holds them.

ghost use Rattle.std.specs.Prelude.{◌≡◌, ◌≤◌, ◌*◌, ◌-◌, ◌<◌, ℤ, List, map, All, neg_ℤ, pos, replicate, Some};
ghost use Rattle.fx_model.specs.LawfulProgram.{IsShift};
ghost use Rattle.fx_model.specs.Machine.{Floor, Nearest, IsWord};
ghost use Rattle.fx_model.specs.Tree.{at};
ghost use Rattle.fx_word.specs.Words.{IsSomeWord};
ghost use Rattle.fx_lanes.specs.WordsSideBySide.{AreLanes, added, subtracted, multiplied, divided, copied};

use fx_word::Word;

/// Sixteen words of `B` bits, one in each lane.
pub trait SideBySide<const B: u32>: Copy {
    // words of `B` bits have room in its lanes
    ghost HasRoom: { Type 0 };

    ghost words: { Self → List ℤ };

    /// One word, in each lane.
    fn splat(value: i64) -> Self
        requires room { HasRoom }
        requires word { IsWord B value }
        ensures { words result ≡ replicate 16 value };

    /// These words.
    fn of(values: [i64; 16]) -> Self
        requires room { HasRoom }
        requires words { AreLanes B values }
        ensures { words result ≡ values };

    /// Each word's opposite.
    fn neg(self) -> Self
        requires room { HasRoom }
        requires fits { All (IsWord B) (map neg_ℤ (words self)) }
        ensures { words result ≡ map neg_ℤ (words self) };

    /// The sums of both, each word shifted.
    fn add_shifted(self, sa: i32, other: Self, sb: i32) -> Self
        requires room { HasRoom }
        requires left { IsShift B sa }
        requires right { IsShift B sb }
        requires fits { All (IsWord B) (added sa sb (words self) (words other)) }
        ensures { words result ≡ added sa sb (words self) (words other) };

    /// The differences of both, each word shifted.
    fn sub_shifted(self, sa: i32, other: Self, sb: i32) -> Self
        requires room { HasRoom }
        requires left { IsShift B sa }
        requires right { IsShift B sb }
        requires fits { All (IsWord B) (subtracted sa sb (words self) (words other)) }
        ensures { words result ≡ subtracted sa sb (words self) (words other) };

    /// The floors of the products by 2^s.
    fn mul_shift(self, other: Self, s: u32) -> Self
        requires room { HasRoom }
        requires shift { s ≤ 2 * B - 2 }
        requires fits { All (IsWord B) (multiplied Floor s (words self) (words other)) }
        ensures { words result ≡ multiplied Floor s (words self) (words other) };

    /// The words nearest to the products by 2^s.
    fn mul_near(self, other: Self, s: u32) -> Self
        requires room { HasRoom }
        requires some { 1 ≤ s }
        requires shift { s ≤ 2 * B - 2 }
        requires fits { All (IsWord B) (multiplied Nearest s (words self) (words other)) }
        ensures { words result ≡ multiplied Nearest s (words self) (words other) };

    /// The quotients of words times 2^s, rounded toward zero.
    fn div_shift(self, other: Self, s: u32) -> Self
        requires room { HasRoom }
        requires shift { s ≤ B }
        requires fits { All (IsSomeWord B) (divided s (words self) (words other)) }
        ensures { map Some (words result) ≡ divided s (words self) (words other) };

    /// The words, shifted.
    fn copy_shift(self, s: i32) -> Self
        requires room { HasRoom }
        requires shift { IsShift B s }
        requires fits { All (IsWord B) (copied Floor s (words self)) }
        ensures { words result ≡ copied Floor s (words self) };

    /// The words nearest to these by 2^s.
    fn copy_near(self, s: u32) -> Self
        requires room { HasRoom }
        requires some { 1 ≤ s }
        requires shift { s ≤ B }
        requires fits { All (IsWord B) (copied Nearest (pos s) (words self)) }
        ensures { words result ≡ copied Nearest (pos s) (words self) };

    /// The word in lane `k`.
    fn word(&self, k: usize) -> Word<B>
        requires { k < 16 }
        ensures { result ≡ at (pos 0) (words self.now) k };

    /// What is always so: there are sixteen words.
    fn keeps(&self)
        ensures { AreLanes B (words self.now) };
}
