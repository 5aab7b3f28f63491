//! How far templates of states reach, and chains of their images.
//!
//! # Contract
//!
//! Why these three, `fx_template_reach`, `fx_simplex` and `fx_template_candidates`, are apart: each answers one
//! question about templates (sums of the states), and can change inside while the others stay: *how far does a template
//! come at best?* (this one), *what is the cheapest sum of templates that are there?* (`fx_simplex`), *which templates,
//! with which bounds?* (`fx_template_candidates`). A `Transition` is one step of the states as templates see it, made
//! of a node list with its points and lines (`over`). `look_ahead` follows a template's images, what inputs and rests
//! add to each, and what is left of the start: where these lead, of which the far end is guessed, is about the least
//! bound that a certificate could have, and so a measure for all that follows; `wanted_length` tells where a chain of
//! images may be closed, `find_closing` whether it can be closed behind a template, and how often the template's image
//! takes that template then, `times_of` which templates of a chain are kept. `poles_of` finds the poles that fade
//! slowly, with the left eigenvector of each, and `pole_templates` so many directions of each pole's plane that a step
//! loses at most a given part of what it shrinks by; both guess in floating point (docs/states.md). A `Pool` keeps
//! templates, with the shares that others work out. Which chains there are, it doesn't choose. But for the fields of a
//! step nothing is promised but that it returns.
//!
//! # Inside
//!
//! A template of the states, its image one step later, the image of that and so on show each other without loss: only
//! where the chain is closed something may be lost. Where its start and later drives bring a template is its reach, the
//! least bound that any certificate could have; it is worked out ahead, so that what a closing costs is known before a
//! template is kept.
//!
//! Chains are made of whole numbers of 128 bits, and one that leaves them drops what asked for it; poles and their
//! planes are worked out in floating point. The trap: sizes are whole at one power of two for all, coefficients at
//! another, bounds at one for each template.
#![tactic(auto)]

mod ahead;
mod chain;
mod complex;
mod eigen;
mod float;
mod linear;
mod poles;
mod pool;
mod sum;
mod templates;
mod transition;
mod units;
mod whole;

pub use ahead::{Ahead, look_ahead};
pub use chain::{Chain, Costs, find_closing, room, room_part, times_of, unit_cost, wanted_length};
pub use float::{
    dyadic_near, greater_of, power_of_two, size_of, to_float, whole_below, whole_near,
};
pub use linear::Linear;
pub use poles::{Pole, pole_templates, poles_of};
pub use pool::Pool;
pub use sum::{plus_scaled, times, with_scaled};
pub use templates::Templates;
pub use transition::Transition;
pub use units::{in_units, moved, moved_interval, unit_at, units_of};
pub use whole::{
    PLACES, SHARE_BITS, SHARE_PLACES, ceil_at, floor_at, magnitude, moved_down, moved_up, product,
    quotient, share_of, unit_vector,
};
