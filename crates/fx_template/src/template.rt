//! Templates that are found, or why none are.

use fx_cert::Template;
use fx_expr::Items;
use fx_num::Memory;
use std::error::Error;
use std::fmt;

/// Templates that one step keeps, the unit templates first in both lists.
#[derive(Debug, Drop)]
pub struct FoundTemplates {
    /// Of the exact values.
    pub templates: Items<Template>,
    /// Of the machine's values less the exact ones.
    pub error_templates: Items<Template>,
}

/// Why there are no templates.
#[derive(Clone, Copy, Debug, PartialEq, Eq)]
pub enum TemplateFault {
    /// Nothing better was found, and this unit template is the first that doesn't stand after the plain rounds; unit
    /// error templates are counted on behind the unit templates.
    NoTemplates { template: u32 },
    /// No memory was left.
    Memory,
}

impl fmt::Display for TemplateFault {
    fn fmt<W: fmt::Write>(&self, f: &mut fmt::Formatter<W>) -> fmt::Result {
        match self {
            TemplateFault::NoTemplates { template } => write!(f, "row {template}: no bound stands"),
            TemplateFault::Memory => write!(f, "out of memory"),
        }
    }
}

impl Error for TemplateFault {}

impl From<Memory> for TemplateFault {
    ghost use Rattle.std.specs.Prelude.{◌≡◌};
    ghost use Rattle.fx_template.specs.declared.template.TemplateFault.TheVariants as fault;

    ghost from_gives = { λ e f. f ≡ fault.Memory };

    fn from(_e: Memory) -> TemplateFault {
        TemplateFault::Memory
    }
}
