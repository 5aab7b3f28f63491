//! Which unit templates stand.

ghost use Rattle.std.specs.Prelude.{◌≡◌, ◌+◌, ◌<◌, ◌&&◌, List};
ghost use Rattle.fx_inequalities.specs.Claim.{Claim};
ghost use Rattle.fx_outward.specs.Grid.{is_small};
ghost use Rattle.fx_formulas.specs.Judging.{judged};
ghost use Rattle.fx_cert.specs.CertificateView.{templates_in};
ghost use Rattle.fx_conditions.specs.Limits.{AreShortTemplates};
ghost use Rattle.fx_template.specs.Listed.{first_untrue};
ghost use Rattle.fx_template.specs.Transitions.{IsModestTransition, transition_in};
ghost use Rattle.fx_template.specs.PlainRounds.{are_met, first_fallen, stands, unit_templates};
ghost use Rattle.fx_template.specs.RoundView.{bounds_in};

use crate::round::Bounds;
use crate::unit::bound_at;
use fx_cert::{Side, Template};
use fx_formulas::Judgement;
use fx_num::Interval;
use fx_outward::is_small;
use fx_template_conditions::{CertificateSide, template_judgement};
use fx_template_reach::Transition;

/// Whether comparisons fit and are true.
pub fn is_met(judgement: Judgement) -> bool
    ensures { (cs : List Claim) → judgement ≡ judged cs → result ≡ are_met cs }
{
    match judgement {
        Judgement::Holds => true,
        Judgement::Fails => false,
        Judgement::Beyond => false,
    }
}

/// The values or the errors of a transition, with these templates.
pub fn side_with<'c>(
    t: &'c Transition<'_>,
    side: &Side,
    templates: &'c [Template],
) -> CertificateSide<'c>
    requires modest { IsModestTransition (transition_in t.now) }
    requires short { AreShortTemplates (templates_in templates.now) }
    ensures { let s = transition_in t.now in
        result ≡ record {
          which = side.now;
          lines = s.lines;
          templates = templates_in templates.now;
          inputs = s.inputs;
          states = s.states;
        } }
{
    CertificateSide::new(*side, &t.lines, templates, t.inputs, t.states)
}

/// Whether both mantissas have at most 62 bits.
fn is_small_interval(x: Interval) -> bool
    ensures { result ≡ (is_small x.lo && is_small x.hi) }
{
    is_small(x.lo) && is_small(x.hi)
}

/// Whether unit template `i` of these, which have the bounds, stands.
fn stands(t: &Transition, side: &Side, templates: &[Template], bounds: &[Interval], i: u32) -> bool
    requires modest { IsModestTransition (transition_in t.now) }
    requires templates { templates_in templates.now ≡ unit_templates t.now.states bounds.now }
    requires short { AreShortTemplates (templates_in templates.now) }
    requires within { i < t.now.states }
    ensures { result ≡ stands side.now (transition_in t.now) bounds.now i }
{
    let own = side_with(t, side, templates);
    let met = is_met(template_judgement(&own, t.next, i));
    is_small_interval(bound_at(bounds, i)) && met
}

/// The first of these unit templates that doesn't stand.
fn first_of_side(
    t: &Transition,
    side: &Side,
    templates: &[Template],
    bounds: &[Interval],
) -> Option<u32>
    requires modest { IsModestTransition (transition_in t.now) }
    requires templates { templates_in templates.now ≡ unit_templates t.now.states bounds.now }
    requires short { AreShortTemplates (templates_in templates.now) }
    ensures { result ≡ first_untrue t.now.states (stands side.now (transition_in t.now) bounds.now) }
{
    for i in 0..t.states {
        if !stands(t, side, templates, bounds, i) {
            return Some(i);
        }
    }
    None
}

/// The first unit template, or else unit error template, that doesn't stand.
pub fn first_fallen(
    t: &Transition,
    bounds: &Bounds,
    templates: &[Template],
    error_templates: &[Template],
) -> Option<u32>
    requires modest { IsModestTransition (transition_in t.now) }
    requires templates { templates_in templates.now ≡ unit_templates t.now.states bounds.now.templates.items }
    requires short { AreShortTemplates (templates_in templates.now) }
    requires error_templates { templates_in error_templates.now
        ≡ unit_templates t.now.states bounds.now.error_templates.items }
    requires short_errors { AreShortTemplates (templates_in error_templates.now) }
    ensures { result ≡ first_fallen (transition_in t.now) (bounds_in bounds.now) }
{
    match first_of_side(t, &Side::Value, templates, &bounds.templates) {
        Some(i) => Some(i),
        None => match first_of_side(t, &Side::Error, error_templates, &bounds.error_templates) {
            Some(i) => Some(t.states + i),
            None => None,
        },
    }
}
