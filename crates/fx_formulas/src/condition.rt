//! Which condition fails: the kinds, parts and faults of the definitions.
//!
//! Want of memory is no condition's fault; a checker that may lack it says so beside them.

ghost use Rattle.std.specs.Prelude.{◌≡◌};
ghost use Rattle.fx_formulas.specs.FaultView.{condition_part_of};
ghost use Rattle.fx_formulas.specs.PartNames.{part_name};

use std::fmt;

/// What a condition asks.
#[derive(Clone, Copy, Debug, PartialEq, Eq)]
pub enum ConditionKind {
    /// The name and the counts of program and certificate are the function's.
    Counts,
    /// The rewriting step can be carried out.
    Step,
    /// Node and code do the same to the same operands.
    Shape,
    /// Both operands of a sum or a difference come to one point.
    Shift,
    /// The exact value lies in the line's range.
    Range,
    /// No divisor is zero.
    Divisor,
    /// The difference of the machine's value and the exact one lies in the line's error interval.
    Error,
    /// Range and error together lie between the least and the greatest word.
    WordTooSmall,
    /// The line's form holds what the operation gives to those of its operands.
    Form,
    /// The start lies in its box, and the boxes' sums in the templates' bounds.
    Start,
    /// One step keeps the template; as it is told, by a text's word for one.
    Row,
    /// One step keeps the template of errors; as it is told.
    ErrorRow,
    /// An output keeps what is demanded of its error and of its printed values.
    Demand,
    /// A number of the condition leaves 128 bits.
    Beyond,
}

/// What the index of a fault counts.
#[derive(Clone, Copy, Debug, PartialEq, Eq)]
pub enum Part {
    /// The program: the index is 0.
    Program,
    /// Rewriting steps, from 0.
    Step,
    /// Nodes, from 0.
    Node,
    /// States, from 0.
    Start,
    /// Templates, from 0.
    Template,
    /// Templates of errors, from 0.
    ErrorTemplate,
    /// Outputs, from 1.
    Output,
}

impl Part {
    /// How the part is called where a fault is told.
    pub fn name(self) -> &'static str
        ensures { result.now ≡ part_name (condition_part_of self) }
    {
        match self {
            Part::Program => "program",
            Part::Step => "step",
            Part::Node => "node",
            Part::Start => "start",
            Part::Template => "row",
            Part::ErrorTemplate => "errorrow",
            Part::Output => "output",
        }
    }
}

/// A condition that fails or doesn't fit in 128 bits.
#[derive(Clone, Copy, Debug, PartialEq, Eq)]
pub struct ConditionFault {
    pub kind: ConditionKind,
    pub part: Part,
    pub index: u32,
}

impl fmt::Display for ConditionKind {
    fn fmt<W: fmt::Write>(&self, f: &mut fmt::Formatter<W>) -> fmt::Result {
        fmt::Debug::fmt(self, f)
    }
}

impl fmt::Display for ConditionFault {
    fn fmt<W: fmt::Write>(&self, f: &mut fmt::Formatter<W>) -> fmt::Result {
        write!(f, "{} at {} {}", self.kind, self.part.name(), self.index)
    }
}
