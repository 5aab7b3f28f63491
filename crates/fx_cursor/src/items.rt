//! Items with a sign between each two, whatever one of them is.
//!
//! A rule reads one item behind those that were read. The loop over items is written here alone, and with it the proof
//! that it gives what the grammar's `repeated` gives.
ghost use Rattle.std.specs.Prelude.{◌≡◌, ◌<◌, ◌≤◌, length, IfOk, IsOk};
ghost use Rattle.fx_lexer.specs.Faults.{GivesParsed};
ghost use Rattle.fx_cursor.specs.Views.{lexemes};
ghost use Rattle.fx_grammar.specs.Steps.{Tokens, stands_next, behind, repeated, separated, listed};
ghost use Rattle.fx_grammar.specs.Steps as grammar;

use crate::steps::{Parsed, behind, next_is, want};
use fx_grammar::Head;
use fx_lexer::Token;

/// A rule that reads one item behind those that were read.
pub trait Rule<'a> {
    /// What was read.
    type Kept: Drop;

    // What the grammar makes of it.
    ghost Value: { Type 0 };

    // The value of what was read.
    ghost value_of: { Self.Kept → Value };

    // Whether one more item may be read.
    ghost can_go_on: { Self → Self.Kept → Type 0 };

    // One more item, as the grammar reads it.
    ghost item_at: { Self → Value → Tokens → grammar.Parsed Value };

    /// One more item.
    fn item<'t>(&self, kept: Self::Kept, tokens: &'t [Token<'a>]) -> Parsed<'t, 'a, Self::Kept>
        requires { can_go_on self.now kept }
        ensures value { GivesParsed (λ x. (value_of x.0, lexemes x.1.now)) result
            (item_at self.now (value_of kept) (lexemes tokens.now)) }
        ensures shorter { IfOk result (λ x. length x.1.now < length tokens.now) }
        ensures on { IfOk result (λ x. can_go_on self.now x.0) };
}

/// What is kept and the tokens, as they begin. A loop's variables come from a `?`, since the borrow checker covers no
/// loop over a parameter of this kind yet.
fn begun<'t, 'a, K: Drop>(kept: K, tokens: &'t [Token<'a>]) -> Parsed<'t, 'a, K>
    ensures value { IfOk result (λ x. (x.0 ≡ kept) × (x.1.now ≡ tokens.now)) }
    ensures ok { IsOk result }
{
    Ok((kept, tokens))
}

/// Items as long as the sign stands next, each behind it.
pub fn repeated<'t, 'a, R: Rule<'a>>(
    rule: &R,
    sign: Head,
    kept: R::Kept,
    tokens: &'t [Token<'a>],
) -> Parsed<'t, 'a, R::Kept>
    requires { R.can_go_on rule.now kept }
    ensures value { GivesParsed (λ x. (R.value_of x.0, lexemes x.1.now)) result
        (repeated (stands_next sign) (behind (R.item_at rule.now)) (R.value_of kept) (lexemes tokens.now)) }
    ensures shorter { IfOk result (λ x. length x.1.now ≤ length tokens.now) }
    ensures on { IfOk result (λ x. R.can_go_on rule.now x.0) }
{
    let (mut now, mut rest) = begun(kept, tokens)?;
    'items: while next_is(sign, rest) {
        let (more, after) = rule.item(now, behind(rest))?;
        now = more;
        rest = after;
    }
    Ok((now, rest))
}

/// Items with a sign between each two.
#[tactic(auto, unfolding(fx_grammar::specs::Steps::separated))]
pub fn separated<'t, 'a, R: Rule<'a>>(
    rule: &R,
    sign: Head,
    kept: R::Kept,
    tokens: &'t [Token<'a>],
) -> Parsed<'t, 'a, R::Kept>
    requires { R.can_go_on rule.now kept }
    ensures value { GivesParsed (λ x. (R.value_of x.0, lexemes x.1.now)) result
        (separated sign (R.item_at rule.now) (R.value_of kept) (lexemes tokens.now)) }
    ensures shorter { IfOk result (λ x. length x.1.now < length tokens.now) }
    ensures on { IfOk result (λ x. R.can_go_on rule.now x.0) }
{
    let (kept, rest) = rule.item(kept, tokens)?;
    repeated(rule, sign, kept, rest)
}

/// Items with a comma between each two, and the parenthesis that closes.
#[tactic(auto, unfolding(fx_grammar::specs::Steps::listed))]
pub fn listed<'t, 'a, R: Rule<'a>>(
    rule: &R,
    end: u32,
    kept: R::Kept,
    tokens: &'t [Token<'a>],
) -> Parsed<'t, 'a, R::Kept>
    requires { R.can_go_on rule.now kept }
    ensures value { GivesParsed (λ x. (R.value_of x.0, lexemes x.1.now)) result
        (listed (R.item_at rule.now) end (R.value_of kept) (lexemes tokens.now)) }
    ensures shorter { IfOk result (λ x. length x.1.now < length tokens.now) }
    ensures on { IfOk result (λ x. R.can_go_on rule.now x.0) }
{
    let (kept, rest) = separated(rule, Head::Comma, kept, tokens)?;
    let (_, rest) = want(end, Head::Close, rest)?;
    Ok((kept, rest))
}
