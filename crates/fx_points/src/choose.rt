//! The choice of points.
ghost use Rattle.std.specs.Prelude.{◌≡◌, ◌≤◌, length, IfOk, IfErr};
ghost use Rattle.fx_points.specs.declared.fault.PointFault.TheVariants as fault;
ghost use Rattle.fx_points.specs.Faults.{BlamesOneOf};

use crate::attempt::{Chosen, Task, attempt, operands};
use crate::facts::NodeFacts;
use crate::fault::PointFault;
use fx_flat::{Node, Nodes};
use fx_num::{GREATEST_POINT, LEAST_POINT, Memory};
use fx_program::Round;
use std::alloc::Global;

/// Counts a use of an operand.
fn count(uses: &mut [u32], operand: Option<u32>) {
    if let Some(a) = operand {
        let a = a as usize;
        if a < uses.len() {
            uses[a] = uses[a].saturating_add(1);
        }
    }
}

/// How often each node is an operand.
fn uses_of(alloc: Global, nodes: &[Node]) -> Result<Vec<u32>, Memory> {
    let mut uses = vec![in alloc; 0u32; nodes.len()]?;
    for node in nodes {
        let (left, right) = operands(node);
        count(&mut uses, left);
        count(&mut uses, right);
    }
    Ok(uses)
}

/// The greatest point of each node by its range.
fn range_caps(alloc: Global, facts: &[NodeFacts]) -> Result<Vec<i8>, Memory>
    ensures { IfOk result (λ caps. length caps.items ≡ length facts.now) }
{
    let mut caps = Vec::new(alloc);
    for fact in facts {
        caps.push(fact.cap.clamp(LEAST_POINT - 1, GREATEST_POINT) as i8)?;
    }
    Ok(caps)
}

/// Lowers the cap of an operand.
fn lower(caps: &mut [i8], operand: u32, cap: i8) {
    let a = operand as usize;
    if a < caps.len() {
        caps[a] = caps[a].min(cap);
    }
}

/// A negation has no shift, so what it negates goes no further than it does.
fn lower_negated(nodes: &[Node], caps: &mut [i8]) {
    for n in (0..caps.len()).rev() {
        if let Some(Node::Neg { a }) = nodes.get(n) {
            let cap = caps[n];
            lower(caps, *a, cap);
        }
    }
}

/// The greatest point of each node by its range and by the negations that use it.
fn caps_of(alloc: Global, task: Task) -> Result<Vec<i8>, Memory>
    ensures { IfOk result (λ caps. length caps.items ≡ length task.entry.facts.now) }
{
    let mut caps = range_caps(alloc, task.facts)?;
    lower_negated(task.nodes, &mut caps);
    Ok(caps)
}

/// Raises what is asked of an operand.
fn raise(finest: &mut [i8], operand: Option<u32>, point: i8) {
    if let Some(a) = operand {
        let a = a as usize;
        if a < finest.len() {
            finest[a] = finest[a].max(point);
        }
    }
}

/// For each node the finest point of the sums that use it, and more than any point where something else does.
fn finest_uses(alloc: Global, nodes: &[Node], points: &[i8]) -> Result<Vec<i8>, Memory> {
    let mut finest = vec![in alloc; LEAST_POINT as i8; points.len()]?;
    for n in 0..points.len() {
        if let Some(node) = nodes.get(n) {
            let is_sum = matches!(node, Node::Add { .. } | Node::Sub { .. });
            let point = if is_sum { points[n] } else { i8::MAX };
            let (left, right) = operands(node);
            raise(&mut finest, left, point);
            raise(&mut finest, right, point);
        }
    }
    Ok(finest)
}

/// Lowers the caps of the shared nodes whose uses are all sums at coarser points. Answers whether there are any.
fn lower_shared(task: Task, points: &[i8], finest: &[i8], caps: &mut [i8]) -> bool {
    let mut is_any = false;
    for n in 0..caps.len() {
        if let (Some(uses), Some(point), Some(limit)) = (
            task.uses.get(n),
            points.get(n),
            finest.get(n),
        ) {
            if *uses > 1 && limit < point {
                caps[n] = *limit;
                is_any = true;
            }
        }
    }
    is_any
}

/// The cheaper of what is chosen and of another attempt, which may find no points.
fn tried_again(alloc: Global, task: Task, caps: &[i8], first: Chosen) -> Result<Chosen, PointFault>
    requires { length first.points.items ≡ length caps.now }
    ensures each { IfOk result (λ chosen. length chosen.points.items ≡ length caps.now) }
    ensures memory { IfErr result (λ e. e ≡ fault.Memory) }
{
    match attempt(alloc, task, caps) {
        Ok(second) => Ok(if second.cost < first.cost {
            second
        } else {
            first
        }),
        Err(PointFault::NoPoint { .. }) => Ok(first),
        Err(PointFault::Memory) => Err(PointFault::Memory),
    }
}

/// The cheaper of what is chosen and of an attempt with lower caps for shared nodes, where they have any.
fn bettered(alloc: Global, task: Task, caps: &mut [i8], first: Chosen) -> Result<Chosen, PointFault>
    requires { length first.points.items ≡ length caps.old }
    ensures each { IfOk result (λ chosen. length chosen.points.items ≡ length caps.old) }
    ensures memory { IfErr result (λ e. e ≡ fault.Memory) }
{
    let finest = finest_uses(alloc, task.nodes, &first.points)?;
    if lower_shared(task, &first.points, &finest, caps) {
        tried_again(alloc, task, caps, first)
    } else {
        Ok(first)
    }
}

/// A point for each node, and what they cost.
fn chosen(alloc: Global, task: Task) -> Result<Chosen, PointFault>
    ensures each { IfOk result (λ chosen. length chosen.points.items ≡ length task.entry.facts.now) }
    ensures blames { IfErr result (BlamesOneOf (length task.entry.facts.now)) }
{
    let mut caps = caps_of(alloc, task)?;
    let first = attempt(alloc, task, &caps)?;
    bettered(alloc, task, &mut caps, first)
}

/// The points as whole numbers.
fn widened(alloc: Global, points: &[i8]) -> Result<Vec<i32>, Memory>
    ensures { IfOk result (λ wide. length wide.items ≡ length points.now) }
{
    let mut wide = Vec::new(alloc);
    for point in points {
        wide.push(i32::from(*point))?;
    }
    Ok(wide)
}

/// A point for each node, by which the summed cost of the outputs is about the least, or the first node with no point
/// left. A node that isn't of any use to an output takes the point that is best for itself.
pub fn choose_points(
    alloc: Global,
    nodes: &Nodes,
    facts: &[NodeFacts],
    width: u32,
    round: Round,
) -> Result<Vec<i32>, PointFault>
    requires facts { length facts.now ≡ length nodes.now.list }
    requires width { width ≤ 64 }
    ensures points { IfOk result (λ points. length points.items ≡ length nodes.now.list) }
    ensures blames { IfErr result (BlamesOneOf (length nodes.now.list)) }
{
    let list = nodes.list.as_slice();
    let uses = uses_of(alloc, list)?;
    let task = Task {
        nodes: list,
        facts,
        uses: &uses,
        width: width as i8,
        round,
    };
    let chosen = chosen(alloc, task)?;
    Ok(widened(alloc, &chosen.points)?)
}
