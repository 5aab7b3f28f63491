//! The program of a function with given codes, where they are lawful.
//!
//! One pass over the codes, in which the points of those before each are kept, as the reader of texts does. The trap: a
//! point follows from those of the operands, so it is computed only behind the test that these stand before.

ghost use Rattle.std.specs.Prelude.{◌↔◌, ◌<◌, ◌≤◌, ◌+◌, ◌-◌, ◌*◌, [], length, map, All, Contains, IfOk, IsTrue};
ghost use Rattle.std.specs.Option.{SomeIff, option_map};
ghost use Rattle.fx_model.specs.Limits.{node_limit};
ghost use Rattle.fx_model.specs.LawfulProgram.{widths, least_shift, IsPoint, IsShift, IsCopyShift, IsLawfulCode, IsPlaced, IsCopy, IsOfVersion, IsLawfulProgram};
ghost use Rattle.fx_model.specs.Machine as machine;
ghost use Rattle.fx_model.specs.Machine.{IsWord, point_of, points_of};
ghost use Rattle.fx_word.specs.Words.{IsWidth};
ghost use Rattle.fx_text.specs.Many.{AreEach};
ghost use Rattle.fx_program.specs.CodeView.{round_of, kind_of, code_of};
ghost use Rattle.fx_program.specs.ProgramReading.{with_point};
ghost use Rattle.fx_lowering.specs.InOrder.{MayStand, MayFollow};
ghost use Rattle.fx_lowering.specs.OfFunction.{program_for};

use crate::program::{input_count, output_count, program_at, state_count};
use fx_expr::Function;
use fx_num::{Memory, NODE_LIMIT};
use fx_program::{Code, Kind, Program, Round, is_point, kind_point};
use fx_word::{is_width, is_word_at};
use std::alloc::Global;

/// What all codes of a program are tested by.
#[derive(Clone, Copy)]
struct Frame {
    width: u32,
    version: u32,
    inputs: u32,
    states: u32,
    first_copy: u32,
}

/// Whether this is a word of so many bits.
fn is_word(width: u32, w: i64) -> bool
    requires { Contains widths width }
    ensures { IsTrue result ↔ IsWord width w }
{
    is_word_at(width, i128::from(w))
}

/// Whether an operand of a sum may be shifted so.
fn is_shift(width: u32, s: i32) -> bool
    requires { IsWidth width }
    ensures { IsTrue result ↔ IsShift width s }
{
    -(width as i32) <= s && s <= 64
}

/// Whether a product that rounds so may be shifted so.
fn is_product_shift(width: u32, round: Round, s: u32) -> bool
    requires { IsWidth width }
    ensures { IsTrue result ↔ (s ≤ 2 * width - 2) × (least_shift (round_of round) ≤ s) }
{
    s <= 2 * width - 2 && round.least_shift() <= s
}

/// Whether a copy that rounds so may be shifted so.
fn is_copy_shift(width: u32, round: Round, s: i64) -> bool
    requires { IsWidth width }
    ensures { IsTrue result ↔ IsCopyShift (round_of round) width s }
{
    let least = i64::from(round.least_copy_shift(width));
    let greatest = i64::from(round.greatest_copy_shift(width));
    least <= s && s <= greatest
}

/// Whether both operands of code `k` come before it.
fn has_operands(k: u32, a: u32, b: u32) -> bool
    ensures { IsTrue result ↔ (a < k) × (b < k) }
{
    a < k && b < k
}

/// Whether a sum or a difference may be code `k`.
fn is_lawful_sum(width: u32, k: u32, a: u32, b: u32, sa: i32, sb: i32) -> bool
    requires { IsWidth width }
    ensures { IsTrue result ↔ IsLawfulCode width k (machine.Add a b sa sb) }
{
    has_operands(k, a, b) && is_shift(width, sa) && is_shift(width, sb)
}

/// Whether operands stand before code `k`, and words and shifts are in their ranges.
fn is_lawful_code(width: u32, k: u32, kind: Kind) -> bool
    requires known { Contains widths width }
    requires width { IsWidth width }
    ensures { IsTrue result ↔ IsLawfulCode width k (kind_of kind) }
{
    match kind {
        Kind::Input { .. } => true,
        Kind::State { w, .. } => is_word(width, w),
        Kind::Const { w, .. } => is_word(width, w),
        Kind::Neg { a } => a < k,
        Kind::Add { a, b, sa, sb } => is_lawful_sum(width, k, a, b, sa, sb),
        Kind::Sub { a, b, sa, sb } => is_lawful_sum(width, k, a, b, sa, sb),
        Kind::Mul { r, a, b, s } => has_operands(k, a, b) && is_product_shift(width, r, s),
        Kind::Div { a, b, s } => has_operands(k, a, b) && s <= width,
        Kind::Copy { r, a, s } => a < k && is_copy_shift(width, r, s),
    }
}

/// Whether inputs, states and others stand in their places.
fn is_placed(inputs: u32, states: u32, n: u32, kind: Kind) -> bool
    requires inputs { inputs ≤ node_limit }
    requires states { states ≤ node_limit }
    ensures { IsTrue result ↔ IsPlaced inputs states n (kind_of kind) }
{
    match kind {
        Kind::Input { k, .. } => n == k && k < inputs,
        Kind::State { k, .. } => k < states && n == inputs + k,
        _ => inputs + states <= n,
    }
}

/// Whether the version has the way in which it rounds.
fn is_of_version(version: u32, kind: Kind) -> bool
    ensures { IsTrue result ↔ IsOfVersion version (kind_of kind) }
{
    match kind {
        Kind::Mul { r, .. } => r.first_version() <= version,
        Kind::Copy { r, .. } => r.first_version() <= version,
        _ => true,
    }
}

/// Whether it is a copy.
fn is_copy(kind: Kind) -> bool
    ensures { IsTrue result ↔ IsCopy (kind_of kind) }
{
    matches!(kind, Kind::Copy { .. })
}

/// Whether it may be code `k`, its point aside.
fn may_stand(frame: Frame, k: u32, kind: Kind) -> bool
    requires known { Contains widths frame.width }
    requires width { IsWidth frame.width }
    requires inputs { frame.inputs ≤ node_limit }
    requires states { frame.states ≤ node_limit }
    ensures { IsTrue result ↔ MayStand frame k (kind_of kind) }
{
    is_lawful_code(frame.width, k, kind)
        && is_placed(frame.inputs, frame.states, k, kind)
        && is_of_version(frame.version, kind)
        && (k < frame.first_copy || is_copy(kind))
}

/// The point of a code that may follow codes with these points. None where it may not.
fn next_point(frame: Frame, points: &[i32], code: Code) -> Option<i32>
    requires known { Contains widths frame.width }
    requires width { IsWidth frame.width }
    requires inputs { frame.inputs ≤ node_limit }
    requires states { frame.states ≤ node_limit }
    requires points { All IsPoint points.now }
    requires few { length points.now ≤ node_limit }
    ensures { SomeIff result (MayFollow frame points.now (code_of code)) (point_of (code_of code) points.now) }
{
    let kind = code.kind();
    if !may_stand(frame, points.len() as u32, kind) {
        return None;
    }
    let f = kind_point(points, kind);
    if is_point(f) { Some(f) } else { None }
}

/// The points of these codes. None where some code may not follow those before it.
fn points_in_order(alloc: Global, frame: Frame, codes: &[Code]) -> Result<Option<Vec<i32>>, Memory>
    requires known { Contains widths frame.width }
    requires width { IsWidth frame.width }
    requires inputs { frame.inputs ≤ node_limit }
    requires states { frame.states ≤ node_limit }
    requires few { length codes.now ≤ node_limit }
    ensures { IfOk result (λ found. SomeIff (option_map (λ points. points.items) found)
        (AreEach (MayFollow frame) with_point [] (map code_of codes.now)) (points_of (map code_of codes.now))) }
{
    let mut points = Vec::new(alloc);
    for i in 0..codes.len() {
        match next_point(frame, &points, codes[i]) {
            Some(f) => points.push(f)?,
            None => return Ok(None),
        }
    }
    Ok(Some(points))
}

/// Whether so many codes are within the limit, and enough for so many inputs, states and outputs.
fn is_count(inputs: u32, states: u32, outputs: u32, count: usize) -> bool
    requires inputs { inputs ≤ node_limit }
    requires states { states ≤ node_limit }
    requires outputs { outputs ≤ node_limit }
    ensures { IsTrue result ↔ (inputs + states + (outputs + states) ≤ count) × (count ≤ node_limit) }
{
    (inputs + states + (outputs + states)) as usize <= count && count <= NODE_LIMIT as usize
}

/// The points of these codes, where their program is lawful.
fn lawful_points(
    alloc: Global,
    function: &Function,
    width: u32,
    round: Round,
    codes: &[Code],
) -> Result<Option<Vec<i32>>, Memory>
    ensures { IfOk result (λ found. SomeIff (option_map (λ points. points.items) found)
        (IsLawfulProgram (program_for width (round_of round) function.now (map code_of codes.now)))
        (points_of (map code_of codes.now))) }
{
    function.keeps();
    let inputs = input_count(function);
    let states = state_count(function);
    let outputs = output_count(function);
    if !is_width(width) || !is_count(inputs, states, outputs, codes.len()) {
        return Ok(None);
    }
    let frame = Frame {
        width,
        version: round.first_version(),
        inputs,
        states,
        first_copy: codes.len() as u32 - (outputs + states),
    };
    points_in_order(alloc, frame, codes)
}

/// The program of a function with these codes, in words of `width` bits and of the version that the rounding came with.
/// None where it isn't lawful.
pub fn lawful_program(
    alloc: Global,
    function: &Function,
    width: u32,
    round: Round,
    codes: Vec<Code>,
) -> Result<Option<Program>, Memory>
    ensures { IfOk result (λ found. SomeIff found
        (IsLawfulProgram (program_for width (round_of round) function.now (map code_of codes.items)))
        (program_for width (round_of round) function.now (map code_of codes.items))) }
{
    match lawful_points(alloc, function, width, round, &codes)? {
        Some(points) => Ok(Some(program_at(alloc, function, width, round, codes, points)?)),
        None => Ok(None),
    }
}
