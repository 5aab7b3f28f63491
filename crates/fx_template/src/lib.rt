//! Templates that one step keeps, for a plan of a program with states, and the exact affine forms of such a plan.
//!
//! # Contract
//!
//! `find_templates` answers templates and error templates for a plan: one step keeps each of them by the comparisons of
//! the conditions Row and ErrorRow over the plan's forms, the unit templates come first, counts and shares are those of
//! a certificate (`both`, by `IsInvariant`), and bounds can be spelled where those of the plan's states can (`written`;
//! `written_law`). It answers NoTemplates with the number of a unit template, or unit error template, and only where
//! that is the first that doesn't stand after the plain rounds of `specs/PlainRounds.antt` (`fallen`). `templates_over`
//! says the same of any transition. Both ask for few variables and nodes, and for numbers of few binary places:
//! `step_by_plan` makes the transition of a plan, and `is_modest` says whether it is such a one.
//!
//! `aff_add`, `aff_scale` and `aff_mul` answer exactly the form that the formulas of the condition Form come to, or
//! Beyond exactly where a mantissa leaves 128 bits, or Memory, with more than sixteen coefficients alone (`IsFormed`);
//! `aff_bound` is where a form's value lies. Of exponents all but `aff_add` ask what a product of dyadics asks, which
//! forms of at most 2^19 places meet (`aff_places`). `PlannedNodes` are a plan, node by node; `roundoff` makes one
//! without forms, of the errors of `fx_analysis`. `synth` forms templates and plan together, in `fx_state_search`.
//!
//! # Inside
//!
//! The ranges of the states alone are seldom kept by a step: a filter's state is bounded because combinations of states
//! are. A search proposes such templates, with shares that show each by others; whatever it proposes is tested by the
//! very comparisons of the checker before it is handed out, so nothing rests on its numbers. Where nothing it proposes
//! passes, plain rounds raise the bounds of the unit templates alone: they are a definition, `find_templates` is equal
//! to it, and only where some unit template doesn't stand after them is there no answer. The trap: a round replaces all
//! bounds at once, of templates and of error templates. One bound that isn't there ends both.
//!
//! A form says that a value is a sum of coefficients times variables, and a rest of which only the interval is known.
//! The trap: an exponent. Each product adds two, and `fx_num` keeps none above 2^20, so whoever goes on with answers of
//! these calls has to round them from time to time.
#![tactic(auto)]

mod affine;
mod bound;
mod coefs;
mod combine;
mod find;
mod formless;
mod modest;
mod places;
mod plan;
mod planned;
mod product;
mod round;
mod stand;
mod template;
mod unit;

ghost use Rattle.fx_template.specs.Templates.{WrittenLaw};

pub use affine::{Affine, AffineFault};
pub use bound::aff_bound;
pub use coefs::Coefs;
pub use combine::{aff_add, aff_mul, aff_scale};
pub use find::{find_templates, templates_over};
pub use formless::roundoff;
pub use modest::is_modest;
pub use places::aff_places;
pub use plan::PlannedNodes;
pub use planned::step_by_plan;
pub use template::{FoundTemplates, TemplateFault};

/// Counted templates whose bounds can be spelled are templates that a certificate may have.
pub fn written_law()
    ensures { WrittenLaw }
{}
