//! One step of the states, as templates see it.

ghost use Rattle.std.specs.Prelude.{◌≡◌, ◌≤◌, ◌-◌, length};

use fx_cert::NodeLine;
use fx_flat::Nodes;

/// How many variables there are, where the next states stand, and the lines of all nodes.
#[derive(Drop)]
pub struct Transition<'a> {
    /// How many inputs there are.
    pub inputs: u32,
    /// How many states there are.
    pub states: u32,
    /// How many outputs there are.
    pub outputs: u32,
    /// The node of the first next state.
    pub next: u32,
    /// Where the point of each node's word stands.
    pub points: &'a [i32],
    /// Where each node's value and error lie, and its form.
    pub lines: Vec<NodeLine>,
}

impl<'a> Transition<'a> {
    /// The step of these nodes, with their points and lines.
    pub fn over(nodes: &Nodes, points: &'a [i32], lines: Vec<NodeLine>) -> Transition<'a>
        ensures inputs { result.inputs ≡ nodes.now.inputs }
        ensures states { result.states ≡ nodes.now.states }
        ensures next { length nodes.now.list ≤ 4000 → result.next ≡ length nodes.now.list - nodes.now.states }
        ensures points { result.points.now ≡ points.now }
        ensures lines { result.lines ≡ lines }
    {
        let next = nodes.list.len().saturating_sub(nodes.states as usize);
        Transition {
            inputs: nodes.inputs,
            states: nodes.states,
            outputs: nodes.outputs,
            next: u32::try_from(next).unwrap_or(0),
            points,
            lines,
        }
    }
}
