//! The kinds of lines of which a certificate has so many: steps, starts, unit templates, further templates and nodes.

use crate::read_line::{TemplateCounts, read_box, read_node, read_start, read_step, read_template};
use fx_cert::{NodeLine, StartBox, Template};
use fx_step::Step;
use fx_text::{Fields, LineReader, TextKind};
use std::alloc::Global;

/// Reads the lines of `count` steps.
#[derive(Drop)]
pub struct StepLines {
    pub count: u32,
}

impl LineReader for StepLines {
    ghost use Rattle.fx_inequalities.specs.Rewriting.{Rewriting};
    ghost use Rattle.fx_step.specs.StepView.{step_view};
    ghost use Rattle.fx_cert_text.specs.LineReading.{step_at};

    type Value = Step;

    ghost Told = { Rewriting };

    ghost told = { step_view };

    ghost count = { λ lines. lines.count };

    ghost lawful = { λ lines. Unit {0} };

    ghost line_at = { λ lines i. step_at };

    fn read(&self, alloc: Global, _i: u32, fields: &mut Fields<'_>) -> Result<Step, TextKind> {
        read_step(alloc, fields)
    }
}

/// A start for each of so many states.
#[derive(Drop)]
pub struct StartLines {
    pub states: u32,
}

impl LineReader for StartLines {
    ghost use Rattle.fx_inequalities.specs.Certificate as model;
    ghost use Rattle.fx_cert.specs.CertificateView.{box_of};
    ghost use Rattle.fx_cert_text.specs.LineReading.{start_at};

    type Value = StartBox;

    ghost Told = { model.StartBox };

    ghost told = { box_of };

    ghost count = { λ lines. lines.states };

    ghost lawful = { λ lines. Unit {0} };

    ghost line_at = { λ lines i. start_at };

    fn read(&self, _alloc: Global, _i: u32, fields: &mut Fields<'_>) -> Result<StartBox, TextKind> {
        let start = read_start(fields)?;
        Ok(start)
    }
}

/// The unit templates, of which there is one for each state, among templates up to an end.
#[derive(Drop)]
pub struct BoxLines {
    pub states: u32,
    pub end: u32,
}

impl LineReader for BoxLines {
    ghost use Rattle.std.specs.Prelude.{◌≤◌};
    ghost use Rattle.fx_model.specs.Limits.{state_limit, template_limit};
    ghost use Rattle.fx_inequalities.specs.Certificate as model;
    ghost use Rattle.fx_cert.specs.CertificateView.{template_view};
    ghost use Rattle.fx_cert_text.specs.LineReading.{box_template_at};

    type Value = Template;

    ghost Told = { model.Template };

    ghost told = { template_view };

    ghost count = { λ lines. lines.states };

    ghost lawful = { λ lines. (lines.states ≤ state_limit) × (lines.end ≤ template_limit) };

    ghost line_at = { λ lines. box_template_at lines.states lines.end };

    fn read(&self, alloc: Global, i: u32, fields: &mut Fields<'_>) -> Result<Template, TextKind> {
        read_box(alloc, self.states, self.end, i, fields)
    }
}

/// The templates behind the unit templates, as many as there are up to the end.
#[derive(Drop)]
pub struct TemplateLines {
    pub states: u32,
    pub end: u32,
}

impl LineReader for TemplateLines {
    ghost use Rattle.std.specs.Prelude.{◌≤◌, ◌-◌};
    ghost use Rattle.fx_model.specs.Limits.{template_limit};
    ghost use Rattle.fx_inequalities.specs.Certificate as model;
    ghost use Rattle.fx_cert.specs.CertificateView.{template_view};
    ghost use Rattle.fx_cert_text.specs.LineReading.{template_at};

    type Value = Template;

    ghost Told = { model.Template };

    ghost told = { template_view };

    ghost count = { λ lines. lines.end - lines.states };

    ghost lawful = { λ lines. lines.end ≤ template_limit };

    ghost line_at = { λ lines i. template_at lines.states lines.end };

    fn read(&self, alloc: Global, _i: u32, fields: &mut Fields<'_>) -> Result<Template, TextKind> {
        read_template(alloc, self.states, self.end, fields)
    }
}

/// Reads the lines of nodes over so many variables.
#[derive(Drop)]
pub struct NodeLines {
    pub variables: u32,
    pub counts: TemplateCounts,
    pub count: u32,
}

impl LineReader for NodeLines {
    ghost use Rattle.fx_inequalities.specs.Certificate as model;
    ghost use Rattle.fx_cert.specs.CertificateView.{line_view};
    ghost use Rattle.fx_cert_text.specs.CountsView.{template_counts_of, AreTemplateCounts};
    ghost use Rattle.fx_cert_text.specs.LineReading.{node_at};

    type Value = NodeLine;

    ghost Told = { model.NodeLine };

    ghost told = { line_view };

    ghost count = { λ lines. lines.count };

    ghost lawful = { λ lines. AreTemplateCounts 0 (template_counts_of lines.counts) };

    ghost line_at = { λ lines. node_at lines.variables lines.counts.templates lines.counts.error_templates };

    fn read(&self, alloc: Global, i: u32, fields: &mut Fields<'_>) -> Result<NodeLine, TextKind> {
        read_node(alloc, self.variables, self.counts, i, fields)
    }
}
