//! The codes of nodes at given points.

ghost use Rattle.std.specs.Prelude.{◌≡◌, ◌<◌, ◌≤◌, ◌-◌, ◌*◌, ◌≤ℤ◌, ◌+ℤ◌, ◌-ℤ◌, pos, neg_ℤ, unsigned_abs, length, true, ◌&&◌, is_some, IfSome, SomeIff};
ghost use Rattle.fx_model.specs.Tree.{at};
ghost use Rattle.fx_model.specs.Machine as machine;
ghost use Rattle.fx_flat.specs.NodeOf.{node_of};
ghost use Rattle.fx_program.specs.CodeView.{round_of, code_of};
ghost use Rattle.fx_lowering.specs.Placed.{is_from_to, shift_of, product_shift, quotient_shift, has_shifts, HasOperands, KeepsPoint, placed};

use fx_flat::Node;
use fx_program::{Code, Round};

/// The point of node `a`. None where there is no such node.
fn point_of(points: &[i32], a: u32) -> Option<i32>
    ensures { SomeIff result (a < length points.now) (at (pos 0) points.now a) }
{
    points.get(a as usize).copied()
}

/// This shift, where it lies in its range.
fn between(lo: i64, hi: i64, s: i64) -> Option<i32>
    ensures value { IfSome result (λ n. n ≡ s) }
    ensures there { neg_ℤ (pos 64) ≤ℤ lo → hi ≤ℤ pos 64 → is_some result ≡ is_from_to lo hi s }
{
    if lo <= s && s <= hi {
        i32::try_from(s).ok()
    } else {
        None
    }
}

/// This shift, where it isn't to the other side and at most so far.
fn up_to(most: i64, s: i64) -> Option<u32>
    ensures value { IfSome result (λ n. n ≡ unsigned_abs s) }
    ensures there { most ≤ℤ pos 126 → is_some result ≡ is_from_to (pos 0) most s }
{
    if 0 <= s && s <= most {
        u32::try_from(s).ok()
    } else {
        None
    }
}

/// The greatest shift to the left, with its sign.
fn least_shift(width: u32) -> i64
    ensures { result ≡ neg_ℤ (pos width) }
{
    -i64::from(width)
}

/// The greatest shift of a product.
fn product_limit(width: u32) -> i64
    ensures { result ≡ pos (2 * width - 2) }
{
    2 * i64::from(width.saturating_sub(1))
}

/// From one point down to another.
fn difference(p: i32, f: i32) -> i64
    ensures { result ≡ p -ℤ f }
{
    i64::from(p) - i64::from(f)
}

/// From the points of two factors down to that of their product.
fn product_places(p: i32, q: i32, f: i32) -> i64
    ensures { result ≡ (p +ℤ q) -ℤ f }
{
    i64::from(p) + i64::from(q) - i64::from(f)
}

/// From the point of a quotient down to where its dividend and its divisor put it.
fn quotient_places(p: i32, q: i32, f: i32) -> i64
    ensures { result ≡ (f -ℤ p) +ℤ q }
{
    i64::from(f) - i64::from(p) + i64::from(q)
}

/// By how much an operand is shifted to the right, where words of `width` bits have such a shift.
fn shift(points: &[i32], a: u32, f: i32, width: u32) -> Option<i32>
    ensures value { IfSome result (λ s. s ≡ shift_of points.now a f) }
    ensures there { a < length points.now → width ≤ 64 →
        is_some result ≡ is_from_to (neg_ℤ (pos width)) (pos 64) (shift_of points.now a f) }
{
    let p = point_of(points, a)?;
    between(least_shift(width), 64, difference(p, f))
}

/// By how much a product is shifted to the right, likewise.
fn product_shift(points: &[i32], a: u32, b: u32, f: i32, width: u32) -> Option<u32>
    ensures value { IfSome result (λ s. s ≡ unsigned_abs (product_shift points.now a b f)) }
    ensures there { a < length points.now → b < length points.now → width ≤ 64 →
        is_some result ≡ is_from_to (pos 0) (pos (2 * width - 2)) (product_shift points.now a b f) }
{
    let p = point_of(points, a)?;
    let q = point_of(points, b)?;
    up_to(product_limit(width), product_places(p, q, f))
}

/// By how much a dividend is shifted to the left, likewise.
fn quotient_shift(points: &[i32], a: u32, b: u32, f: i32, width: u32) -> Option<u32>
    ensures value { IfSome result (λ s. s ≡ unsigned_abs (quotient_shift points.now a b f)) }
    ensures there { a < length points.now → b < length points.now → width ≤ 64 →
        is_some result ≡ is_from_to (pos 0) (pos width) (quotient_shift points.now a b f) }
{
    let p = point_of(points, a)?;
    let q = point_of(points, b)?;
    up_to(i64::from(width), quotient_places(p, q, f))
}

/// The code of a negation, at the point of its operand alone.
fn negation(points: &[i32], a: u32, f: i32) -> Option<Code>
    ensures code { IfSome result (λ c. code_of c ≡ machine.Neg a) }
    ensures there { a < length points.now → f ≡ at (pos 0) points.now a → is_some result ≡ true }
{
    if point_of(points, a)? == f {
        Some(Code::Neg { a })
    } else {
        None
    }
}

/// The shifts of two operands.
fn shifts(points: &[i32], a: u32, b: u32, f: i32, width: u32) -> Option<(i32, i32)>
    ensures left { IfSome result (λ s. s.0 ≡ shift_of points.now a f) }
    ensures right { IfSome result (λ s. s.1 ≡ shift_of points.now b f) }
    ensures there { a < length points.now → b < length points.now → width ≤ 64 →
        is_some result ≡ is_from_to (neg_ℤ (pos width)) (pos 64) (shift_of points.now a f)
        && is_from_to (neg_ℤ (pos width)) (pos 64) (shift_of points.now b f) }
{
    let sa = shift(points, a, f, width)?;
    let sb = shift(points, b, f, width)?;
    Some((sa, sb))
}

/// The code of a node at the point `f`, in words of `width` bits, where `points` are all points and `w` is the word of
/// a literal or a state. None where an operand has no point, where a negation's isn't `f`, and where no code has such a
/// shift.
pub fn code_at(
    node: &Node,
    w: i64,
    f: i32,
    points: &[i32],
    width: u32,
    round: Round,
) -> Option<Code>
    ensures code { IfSome result
        (λ c. code_of c ≡ placed width (round_of round) points.now w (node_of node.now) f) }
    ensures there { width ≤ 64 → HasOperands (length points.now) (node_of node.now) →
        KeepsPoint points.now (node_of node.now) f →
        is_some result ≡ has_shifts width points.now (node_of node.now) f }
{
    match *node {
        Node::Input { k } => Some(Code::Input { k, f }),
        Node::State { k } => Some(Code::State { k, f, w }),
        Node::Const { .. } => Some(Code::Const { w, f }),
        Node::Neg { a } => negation(points, a, f),
        Node::Add { a, b } => {
            let (sa, sb) = shifts(points, a, b, f, width)?;
            Some(Code::Add { a, b, sa, sb })
        }
        Node::Sub { a, b } => {
            let (sa, sb) = shifts(points, a, b, f, width)?;
            Some(Code::Sub { a, b, sa, sb })
        }
        Node::Mul { a, b } => {
            let s = product_shift(points, a, b, f, width)?;
            Some(round.product_code(a, b, s))
        }
        Node::Div { a, b } => {
            let s = quotient_shift(points, a, b, f, width)?;
            Some(Code::Div { a, b, s })
        }
        Node::Copy { a } => {
            let s = shift(points, a, f, width)?;
            Some(round.copy_code(width, a, s))
        }
    }
}
