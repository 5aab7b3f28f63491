//! What a condition's comparisons come to.

ghost use Rattle.std.specs.Prelude.{◌≡◌, ◌++◌, true, false, List, []};
ghost use Rattle.std.specs.Option.{option_map};
ghost use Rattle.fx_inequalities.specs.Claim.{Claim};
ghost use Rattle.fx_inequalities.specs.Condition as conditions;
ghost use Rattle.fx_formulas.specs.Judging.{judged};
ghost use Rattle.fx_formulas.specs.FaultView.{kind_of, condition_part_of, condition_fault_of};

use crate::condition::{ConditionFault, ConditionKind, Part};

/// Whether the comparisons of a condition fit in 128 bits and are true.
#[derive(Clone, Copy, Debug, PartialEq, Eq)]
pub enum Judgement {
    /// All fit, and all are true.
    Holds,
    /// All fit, and one isn't true.
    Fails,
    /// One doesn't fit, whatever the others say.
    Beyond,
}

impl Judgement {
    /// What these comparisons and others come to together.
    pub fn and(self, other: Judgement) -> Judgement
        ensures { (a b : List Claim) → self ≡ judged a → other ≡ judged b → result ≡ judged (a ++ b) }
    {
        match self {
            Judgement::Holds => other,
            Judgement::Fails => match other {
                Judgement::Beyond => Judgement::Beyond,
                _ => Judgement::Fails,
            },
            Judgement::Beyond => Judgement::Beyond,
        }
    }
}

/// The fault of a condition whose comparisons come to this.
pub fn fault(
    kind: ConditionKind,
    part: Part,
    index: u32,
    judgement: Judgement,
) -> Option<ConditionFault>
    ensures { (cs : List Claim) → judgement ≡ judged cs →
        option_map condition_fault_of result
        ≡ conditions.fault_of (record {
          kind = kind_of kind;
          part = condition_part_of part;
          index = index;
          test = true;
          claims = cs;
        }) }
{
    match judgement {
        Judgement::Holds => None,
        Judgement::Fails => Some(ConditionFault { kind, part, index }),
        Judgement::Beyond => Some(ConditionFault {
            kind: ConditionKind::Beyond,
            part,
            index,
        }),
    }
}

/// The fault of a condition whose test fails, and which has no comparisons.
pub fn untrue(kind: ConditionKind, part: Part, index: u32) -> Option<ConditionFault>
    ensures { option_map condition_fault_of result
        ≡ conditions.fault_of (record {
          kind = kind_of kind;
          part = condition_part_of part;
          index = index;
          test = false;
          claims = [];
        }) }
{
    Some(ConditionFault { kind, part, index })
}
