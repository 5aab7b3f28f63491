//! One pass from the inputs to the outputs and one back.
ghost use Rattle.std.specs.Prelude.{◌≡◌, length, IfOk, IfErr};
ghost use Rattle.fx_points.specs.Faults.{BlamesOneOf};

use crate::choice::{Choice, Choices};
use crate::entry::Entry;
use crate::facts::NodeFacts;
use crate::fault::PointFault;
use crate::literal::literal;
use crate::operation::{Factor, Rates, Room, input, product, quotient, sum};
use fx_flat::Node;
use fx_num::Memory;
use fx_program::Round;
use fx_search_numbers::Rounded;
use std::alloc::Global;

/// What an attempt reads.
#[derive(Clone, Copy)]
pub struct Task<'a> {
    /// The nodes.
    pub nodes: &'a [Node],
    /// What is known of each.
    pub facts: &'a [NodeFacts],
    /// How often each is an operand.
    pub uses: &'a [u32],
    /// The bits of a word.
    pub width: i8,
    /// How products round.
    pub round: Round,
}

/// A point for each node, and the summed cost of the outputs.
#[derive(Drop)]
pub struct Chosen {
    pub points: Vec<i8>,
    pub cost: Rounded,
}

/// The operands of a node, the left one first.
pub fn operands(node: &Node) -> (Option<u32>, Option<u32>) {
    match node {
        Node::Input { .. } | Node::State { .. } | Node::Const { .. } => (None, None),
        Node::Neg { a } | Node::Copy { a } => (Some(*a), None),
        Node::Add { a, b } | Node::Sub { a, b } | Node::Mul { a, b } | Node::Div { a, b } => {
            (Some(*a), Some(*b))
        }
    }
}

/// The entries of both operands.
fn both_of(before: &[Entry], a: u32, b: u32) -> Option<(&Entry, &Entry)> {
    match (before.get(a as usize), before.get(b as usize)) {
        (Some(x), Some(y)) => Some((x, y)),
        _ => None,
    }
}

/// The points that a negation or a copy may have.
fn passed_entry(before: &[Entry], a: u32, cap: i8) -> Option<Entry> {
    match before.get(a as usize) {
        Some(x) => x.passed_on(i32::from(cap)),
        None => None,
    }
}

/// The entry of these choices, if there are any.
fn listed(choices: Option<Choices>) -> Option<Entry> {
    match choices {
        Some(choices) => Some(Entry::Listed(choices)),
        None => None,
    }
}

/// The points that a sum or a difference may have.
fn sum_entry(before: &[Entry], a: u32, b: u32, room: Room) -> Option<Entry> {
    match both_of(before, a, b) {
        Some((x, y)) => listed(sum(x, y, room)),
        None => None,
    }
}

/// A factor's entry and size.
fn factor<'a>(facts: &[NodeFacts], before: &'a [Entry], a: u32) -> Option<Factor<'a>> {
    match (before.get(a as usize), facts.get(a as usize)) {
        (Some(entry), Some(facts)) => Some(Factor {
            entry,
            size: facts.size,
        }),
        _ => None,
    }
}

/// The points that a product may have.
fn product_entry(
    facts: &[NodeFacts],
    before: &[Entry],
    a: u32,
    b: u32,
    room: Room,
) -> Option<Entry> {
    match (factor(facts, before, a), factor(facts, before, b)) {
        (Some(x), Some(y)) => listed(product(x, y, room)),
        _ => None,
    }
}

/// The points that a quotient of such a size may have.
fn quotient_entry(
    facts: &[NodeFacts],
    before: &[Entry],
    a: u32,
    b: u32,
    size: Rounded,
    room: Room,
) -> Option<Entry> {
    match (both_of(before, a, b), facts.get(b as usize)) {
        (Some((x, y)), Some(divisor)) => {
            let inverse = Rounded::ONE.over(divisor.least);
            Some(Entry::Listed(quotient(x, y, Rates { inverse, size }, room)))
        }
        _ => None,
    }
}

/// The points that a node may have, by what is known of it and by those of the nodes before it.
fn entry_by(
    task: &Task,
    before: &[Entry],
    node: &Node,
    known: &NodeFacts,
    cap: i8,
) -> Option<Entry> {
    let room = Room {
        cap,
        width: task.width,
        round: task.round,
    };
    match node {
        Node::Input { .. } | Node::State { .. } => Some(Entry::Listed(input(known.error, cap))),
        Node::Const { c } => Some(literal(*c, cap)),
        Node::Neg { a } | Node::Copy { a } => passed_entry(before, *a, cap),
        Node::Add { a, b } | Node::Sub { a, b } => sum_entry(before, *a, *b, room),
        Node::Mul { a, b } => product_entry(task.facts, before, *a, *b, room),
        Node::Div { a, b } => quotient_entry(task.facts, before, *a, *b, known.size, room),
    }
}

/// The points that node `n` may have, by those of the nodes before it.
fn entry_of(task: &Task, before: &[Entry], n: usize, cap: i8) -> Option<Entry> {
    match (task.nodes.get(n), task.facts.get(n)) {
        (Some(node), Some(known)) => entry_by(task, before, node, known, cap),
        _ => None,
    }
}

/// The points as they are, or the best one alone for a node with several uses.
fn shared(entry: Entry, is_shared: bool) -> Option<Entry> {
    match entry.best() {
        Some(best) => Some(if is_shared { Entry::alone(best) } else { entry }),
        None => None,
    }
}

/// The points that node `n` may have, a single one where it has several uses, or None where no point is left.
fn settled_entry(task: &Task, before: &[Entry], n: usize, cap: i8) -> Option<Entry> {
    match (entry_of(task, before, n, cap), task.uses.get(n)) {
        (Some(entry), Some(uses)) => shared(entry, *uses > 1),
        _ => None,
    }
}

/// The points that each node may have.
fn entries(alloc: Global, task: Task, caps: &[i8]) -> Result<Vec<Entry>, PointFault>
    ensures each { IfOk result (λ entries. length entries.items ≡ length caps.now) }
    ensures blames { IfErr result (BlamesOneOf (length caps.now)) }
{
    let mut entries = Vec::new(alloc);
    for n in 0..caps.len() {
        match settled_entry(&task, &entries, n, caps[n]) {
            Some(entry) => entries.push(entry)?,
            None => return Err(PointFault::NoPoint { node: n }),
        }
    }
    Ok(entries)
}

/// The cheapest point of a node.
fn best_point(entry: &Entry) -> i8 {
    match entry.best() {
        Some(choice) => choice.point,
        None => 0,
    }
}

/// The cheapest point of each node.
fn best_points(alloc: Global, entries: &[Entry]) -> Result<Vec<i8>, Memory>
    ensures { IfOk result (λ points. length points.items ≡ length entries.now) }
{
    let mut points = Vec::new(alloc);
    for entry in entries {
        points.push(best_point(entry))?;
    }
    Ok(points)
}

/// Gives an operand its point.
fn set(points: &mut [i8], operand: Option<u32>, point: i8) {
    if let Some(a) = operand {
        let a = a as usize;
        if a < points.len() {
            points[a] = point;
        }
    }
}

/// Gives the operands of a node the points that its choice asks for, if it has one. Answers the cost with that of an
/// output added.
fn hand_on(node: &Node, choice: Option<Choice>, points: &mut [i8], cost: Rounded) -> Rounded {
    match choice {
        Some(choice) => {
            let (left, right) = operands(node);
            set(points, left, choice.left);
            set(points, right, choice.right);
            match node {
                Node::Copy { .. } => cost.plus(choice.cost),
                _ => cost,
            }
        }
        None => cost,
    }
}

/// From the last node to the first, gives the operands the points that the node's own point asks for. Answers the
/// summed cost of the outputs.
fn hand_down(nodes: &[Node], entries: &[Entry], points: &mut [i8]) -> Rounded {
    let mut cost = Rounded::ZERO;
    for n in (0..points.len()).rev() {
        let point = i32::from(points[n]);
        cost = match (nodes.get(n), entries.get(n)) {
            (Some(node), Some(entry)) => hand_on(node, entry.at(point), points, cost),
            _ => cost,
        };
    }
    cost
}

/// The cheapest points up to the caps.
pub fn attempt(alloc: Global, task: Task, caps: &[i8]) -> Result<Chosen, PointFault>
    ensures each { IfOk result (λ chosen. length chosen.points.items ≡ length caps.now) }
    ensures blames { IfErr result (BlamesOneOf (length caps.now)) }
{
    let entries = entries(alloc, task, caps)?;
    let mut points = best_points(alloc, &entries)?;
    let cost = hand_down(task.nodes, &entries, &mut points);
    Ok(Chosen { points, cost })
}
