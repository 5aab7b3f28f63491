//! The rewriting rules, and that they keep the meaning of a function.
//!
//! # Contract
//!
//! What a rule of the table (`fx_model/specs/Rules`) makes of a tree, what a step makes of a function, the single steps
//! in order; docs/formats.md has the table in words. `rewrite_law`: rewriting gives exactly what the rules say
//! (`exact`), and a valid function stays valid and keeps its meaning (`keeps`).
//!
//! # Inside
//!
//! Nothing here runs. The thirty rules are one table of patterns (`fx_model/specs/Rules.antt`); `specs/Turned.antt`
//! says what a rule makes of a tree, by a walk over its patterns, and `specs/Steps.antt` what a step makes of a
//! function. The trap: value *and definedness* stay, so no rule may drop a divisor that can be zero.
#![tactic(auto)]

ghost use Rattle.fx_rules.specs.Steps.{RewriteLaw};

/// A step gives exactly what the rules say, and the function keeps its meaning.
pub fn rewrite_law()
    ensures { RewriteLaw }
{}
