//! Products and quotients of words of any width, one lane after the other.
//!
//! What is on the way to one may need 128 bits, which no vector has.

ghost use Rattle.std.specs.Prelude.{◌≡◌, ◌≤◌, ◌*◌, ◌-◌, ◌^◌, ◌*ℤ◌, pos, map, All, Some};
ghost use Rattle.fx_model.specs.Machine.{Floor, Nearest, IsWord, rounded, floor_divided};
ghost use Rattle.fx_word.specs.Words.{IsWidth, IsSomeWord};
ghost use Rattle.fx_lanes.specs.WordsSideBySide.{AreLanes, multiplied, divided};

use fx_word::Word;

// the floor of `v * w / 2^s`
#[inline]
fn lowered_product<const B: u32>(v: i64, w: i64, s: u32) -> i64
    requires width { IsWidth B }
    requires left { IsWord B v }
    requires right { IsWord B w }
    requires shift { s ≤ 2 * B - 2 }
    requires fits { IsWord B (rounded Floor (v *ℤ w) (pos s)) }
    ensures { result ≡ rounded Floor (v *ℤ w) (pos s) }
{
    Word::<B>::of(v).mul_shift(Word::<B>::of(w), s).get()
}

// the word nearest to it
#[inline]
fn nearest_product<const B: u32>(v: i64, w: i64, s: u32) -> i64
    requires width { IsWidth B }
    requires left { IsWord B v }
    requires right { IsWord B w }
    requires some { 1 ≤ s }
    requires shift { s ≤ 2 * B - 2 }
    requires fits { IsWord B (rounded Nearest (v *ℤ w) (pos s)) }
    ensures { result ≡ rounded Nearest (v *ℤ w) (pos s) }
{
    Word::<B>::of(v).mul_near(Word::<B>::of(w), s).get()
}

// `v * 2^s / w`, rounded toward zero
#[inline]
fn quotient<const B: u32>(v: i64, s: u32, w: i64) -> i64
    requires width { IsWidth B }
    requires left { IsWord B v }
    requires right { IsWord B w }
    requires shift { s ≤ B }
    requires fits { IsSomeWord B (floor_divided (v *ℤ pos (2 ^ s)) w) }
    ensures value { floor_divided (v *ℤ pos (2 ^ s)) w ≡ Some result }
    ensures word { IsWord B result }
{
    Word::<B>::of(v).div_shift(Word::<B>::of(w), s).get()
}

/// The floors of the products by 2^s.
#[inline]
pub(crate) fn lowered_products<const B: u32>(v: &[i64; 16], w: &[i64; 16], s: u32) -> [i64; 16]
    requires width { IsWidth B }
    requires left { AreLanes B v.now }
    requires right { AreLanes B w.now }
    requires shift { s ≤ 2 * B - 2 }
    requires fits { All (IsWord B) (multiplied Floor s v.now w.now) }
    ensures { result ≡ multiplied Floor s v.entry.now w.entry.now }
{
    let mut words = [0i64; 16];
    for k in 0..16usize {
        words[k] = lowered_product::<B>(v[k], w[k], s);
    }
    words
}

/// The words nearest to the products by 2^s.
#[inline]
pub(crate) fn nearest_products<const B: u32>(v: &[i64; 16], w: &[i64; 16], s: u32) -> [i64; 16]
    requires width { IsWidth B }
    requires left { AreLanes B v.now }
    requires right { AreLanes B w.now }
    requires some { 1 ≤ s }
    requires shift { s ≤ 2 * B - 2 }
    requires fits { All (IsWord B) (multiplied Nearest s v.now w.now) }
    ensures { result ≡ multiplied Nearest s v.entry.now w.entry.now }
{
    let mut words = [0i64; 16];
    for k in 0..16usize {
        words[k] = nearest_product::<B>(v[k], w[k], s);
    }
    words
}

/// The quotients of words times 2^s, rounded toward zero.
#[inline]
pub(crate) fn quotients<const B: u32>(v: &[i64; 16], s: u32, w: &[i64; 16]) -> [i64; 16]
    requires width { IsWidth B }
    requires left { AreLanes B v.now }
    requires right { AreLanes B w.now }
    requires shift { s ≤ B }
    requires fits { All (IsSomeWord B) (divided s v.now w.now) }
    ensures some { map Some result ≡ divided s v.entry.now w.entry.now }
    ensures words { AreLanes B result }
{
    let mut words = [0i64; 16];
    for k in 0..16usize {
        words[k] = quotient::<B>(v[k], s, w[k]);
    }
    words
}
