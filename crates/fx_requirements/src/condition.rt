//! Conditions, each of which gives an end or an error of an input or an output; and those of `require`, in parentheses
//! that may nest.
//!
//! Parentheses are counted, not followed, so that a million of them need no stack. The trap: a relation with a number
//! or a name on both sides is found at its second side, and told at its first token.
ghost use Rattle.std.specs.Prelude.{◌≡◌, ◌≤◌, ◌<◌, ◌+◌, ◌^◌, length, IfOk, true, false};
ghost use Rattle.fx_lexer.specs.Faults.{GivesParsed};
ghost use Rattle.fx_lexer.specs.Tokens.{lexeme_of};
ghost use Rattle.fx_cursor.specs.Texts.{numeral_decimal};
ghost use Rattle.fx_cursor.specs.Views.{lexemes};
ghost use Rattle.fx_requirements.specs.Views.{subjects_of};
ghost use Rattle.fx_requirements.specs.Views.{conditions_in};
ghost use Rattle.fx_grammar.specs.Ranges.{is_relation, is_upward, is_signed, stated_error, bound_at, name_first, behind_relation, number_first, condition_at, wanted_at, read_at, conditions_step, conditions_at};

use crate::subject::{Subject, said, subject_at};
use fx_cursor::{Numeral, Parsed, behind, number, peek, place_at, signed, want, wrong};
use fx_grammar::{Aspect, Head, head_of};
use fx_lexer::{SourceFault, SourceKind, Token};

fn is_relation(head: Head) -> bool
    ensures { result ≡ is_relation head }
{
    head == Head::Below || head == Head::AtMost || head == Head::Above || head == Head::AtLeast
}

fn is_upward(head: Head) -> bool
    ensures { result ≡ is_upward head }
{
    head == Head::Below || head == Head::AtMost
}

/// A number stands next, with or without a minus.
fn is_signed(tokens: &[Token<'_>]) -> bool
    ensures { result ≡ is_signed (lexemes tokens.now) }
{
    let head = peek(tokens);
    head == Head::Number || (head == Head::Minus && peek(behind(tokens)) == Head::Number)
}

#[tactic(auto, unfolding(fx_grammar::specs::Ranges::stated_error))]
fn error_at<'t, 'a>(
    end: u32,
    subjects: Vec<Subject<'a>>,
    token: &Token<'a>,
    k: usize,
    tokens: &'t [Token<'a>],
) -> Parsed<'t, 'a, Vec<Subject<'a>>>
    requires { k < length subjects.items }
    ensures value { GivesParsed (λ x. (subjects_of x.0, lexemes x.1.now)) result
        (stated_error end (subjects_of subjects.entry) (lexeme_of token.now) k (lexemes tokens.now)) }
    ensures shorter { IfOk result (λ x. length x.1.now < length tokens.now) }
{
    let (value, rest) = number(end, tokens)?;
    let subjects = said(Aspect::Error, value, token, subjects, k)?;
    Ok((subjects, rest))
}

#[tactic(auto, unfolding(fx_grammar::specs::Ranges::bound_at))]
fn bound_at<'t, 'a>(
    end: u32,
    subjects: Vec<Subject<'a>>,
    token: &Token<'a>,
    k: usize,
    aspect: Aspect,
    tokens: &'t [Token<'a>],
) -> Parsed<'t, 'a, Vec<Subject<'a>>>
    requires { k < length subjects.items }
    ensures value { GivesParsed (λ x. (subjects_of x.0, lexemes x.1.now)) result
        (bound_at end (subjects_of subjects.entry) (lexeme_of token.now) k aspect (lexemes tokens.now)) }
    ensures shorter { IfOk result (λ x. length x.1.now < length tokens.now) }
{
    if peek(tokens) == Head::Name {
        return Err(SourceFault::at(token.at, SourceKind::Unsupported));
    }
    let (value, rest) = signed(end, tokens)?;
    let subjects = said(aspect, value, token, subjects, k)?;
    Ok((subjects, rest))
}

/// A condition that begins with a name.
#[tactic(auto, unfolding(fx_grammar::specs::Ranges::name_first))]
fn name_first<'t, 'a>(
    end: u32,
    subjects: Vec<Subject<'a>>,
    tokens: &'t [Token<'a>],
) -> Parsed<'t, 'a, Vec<Subject<'a>>>
    ensures value { GivesParsed (λ x. (subjects_of x.0, lexemes x.1.now)) result
        (name_first end (subjects_of subjects.entry) (lexemes tokens.now)) }
    ensures shorter { IfOk result (λ x. length x.1.now < length tokens.now) }
{
    let (token, rest) = want(end, Head::Name, tokens)?;
    let k = subject_at(&subjects, &token)?;
    let head = peek(rest);
    if head == Head::PlusMinus {
        return error_at(end, subjects, &token, k, behind(rest));
    }
    if !is_relation(head) {
        return Err(wrong(end, rest));
    }
    let aspect = if is_upward(head) {
        Aspect::High
    } else {
        Aspect::Low
    };
    bound_at(end, subjects, &token, k, aspect, behind(rest))
}

#[tactic(auto, unfolding(fx_grammar::specs::Ranges::behind_relation))]
fn behind_relation<'t, 'a>(
    end: u32,
    first: u32,
    subjects: Vec<Subject<'a>>,
    value: Numeral<'a>,
    aspect: Aspect,
    tokens: &'t [Token<'a>],
) -> Parsed<'t, 'a, Vec<Subject<'a>>>
    ensures value { GivesParsed (λ x. (subjects_of x.0, lexemes x.1.now)) result
        (behind_relation end first (subjects_of subjects.entry) (numeral_decimal value.entry) aspect
        (lexemes tokens.now)) }
    ensures shorter { IfOk result (λ x. length x.1.now < length tokens.now) }
{
    if is_signed(tokens) {
        return Err(SourceFault::at(first, SourceKind::Unsupported));
    }
    let (token, rest) = want(end, Head::Name, tokens)?;
    let k = subject_at(&subjects, &token)?;
    let subjects = said(aspect, value, &token, subjects, k)?;
    Ok((subjects, rest))
}

/// A condition that begins with a number.
#[tactic(auto, unfolding(fx_grammar::specs::Ranges::number_first))]
fn number_first<'t, 'a>(
    end: u32,
    subjects: Vec<Subject<'a>>,
    tokens: &'t [Token<'a>],
) -> Parsed<'t, 'a, Vec<Subject<'a>>>
    ensures value { GivesParsed (λ x. (subjects_of x.0, lexemes x.1.now)) result
        (number_first end (subjects_of subjects.entry) (lexemes tokens.now)) }
    ensures shorter { IfOk result (λ x. length x.1.now < length tokens.now) }
{
    let (value, rest) = signed(end, tokens)?;
    let head = peek(rest);
    if !is_relation(head) {
        return Err(wrong(end, rest));
    }
    let aspect = if is_upward(head) {
        Aspect::Low
    } else {
        Aspect::High
    };
    behind_relation(
        end,
        place_at(end, tokens),
        subjects,
        value,
        aspect,
        behind(rest),
    )
}

/// A condition without parentheses around it, which is also a demand.
#[tactic(auto, unfolding(fx_grammar::specs::Ranges::condition_at))]
pub(crate) fn condition_at<'t, 'a>(
    end: u32,
    subjects: Vec<Subject<'a>>,
    tokens: &'t [Token<'a>],
) -> Parsed<'t, 'a, Vec<Subject<'a>>>
    ensures value { GivesParsed (λ x. (subjects_of x.0, lexemes x.1.now)) result
        (condition_at end (subjects_of subjects.entry) (lexemes tokens.now)) }
    ensures shorter { IfOk result (λ x. length x.1.now < length tokens.now) }
{
    if peek(tokens) == Head::Name {
        name_first(end, subjects, tokens)
    } else {
        number_first(end, subjects, tokens)
    }
}

/// What was read of the conditions.
#[derive(Drop)]
pub struct Conditions<'a> {
    pub depth: usize,
    /// Whether a condition is due.
    pub wants: bool,
    pub subjects: Vec<Subject<'a>>,
}

fn wanted_at<'t, 'a>(
    end: u32,
    depth: usize,
    subjects: Vec<Subject<'a>>,
    tokens: &'t [Token<'a>],
) -> Parsed<'t, 'a, Conditions<'a>>
    requires { depth + length tokens.now < 2 ^ 63 }
    ensures value { GivesParsed (λ x. (conditions_in x.0, lexemes x.1.now)) result
        (wanted_at end (record { depth = depth; wants = true; subjects = subjects_of subjects.entry })
        (lexemes tokens.now)) }
    ensures room { IfOk result (λ x. (length x.1.now < length tokens.now) ×
        (x.0.depth + length x.1.now ≤ depth + length tokens.now)) }
{
    let Some((token, rest)) = tokens.split_first() else {
        return Err(SourceFault::at(end, SourceKind::EndOfText));
    };
    if head_of(token) == Head::Open {
        let conditions = Conditions {
            depth: depth + 1,
            wants: true,
            subjects,
        };
        return Ok((conditions, rest));
    }
    let (subjects, rest) = condition_at(end, subjects, tokens)?;
    let conditions = Conditions {
        depth,
        wants: false,
        subjects,
    };
    Ok((conditions, rest))
}

fn read_at<'t, 'a>(
    end: u32,
    depth: usize,
    subjects: Vec<Subject<'a>>,
    tokens: &'t [Token<'a>],
) -> Parsed<'t, 'a, Conditions<'a>>
    requires { 0 < depth }
    ensures value { GivesParsed (λ x. (conditions_in x.0, lexemes x.1.now)) result
        (read_at end (record { depth = depth; wants = false; subjects = subjects_of subjects.entry })
        (lexemes tokens.now)) }
    ensures room { IfOk result (λ x. (length x.1.now < length tokens.now) ×
        (x.0.depth + length x.1.now ≤ depth + length tokens.now)) }
{
    let Some((token, rest)) = tokens.split_first() else {
        return Err(SourceFault::at(end, SourceKind::EndOfText));
    };
    let head = head_of(token);
    if head == Head::Close {
        let conditions = Conditions {
            depth: depth - 1,
            wants: false,
            subjects,
        };
        return Ok((conditions, rest));
    }
    if head != Head::And {
        return Err(wrong(end, tokens));
    }
    let conditions = Conditions {
        depth,
        wants: true,
        subjects,
    };
    Ok((conditions, rest))
}

/// One parenthesis, one condition or one `&&`.
#[tactic(auto, unfolding(fx_grammar::specs::Ranges::conditions_step))]
fn conditions_step<'t, 'a>(
    end: u32,
    conditions: Conditions<'a>,
    tokens: &'t [Token<'a>],
) -> Parsed<'t, 'a, Conditions<'a>>
    requires open { 0 < conditions.depth }
    requires room { conditions.depth + length tokens.now < 2 ^ 63 }
    ensures value { GivesParsed (λ x. (conditions_in x.0, lexemes x.1.now)) result
        (conditions_step end (conditions_in conditions.entry) (lexemes tokens.now)) }
    ensures room { IfOk result (λ x. (length x.1.now < length tokens.now) ×
        (x.0.depth + length x.1.now ≤ conditions.entry.depth + length tokens.now)) }
{
    let Conditions {
        depth,
        wants,
        subjects,
    } = conditions;
    if wants {
        wanted_at(end, depth, subjects, tokens)
    } else {
        read_at(end, depth, subjects, tokens)
    }
}

/// All conditions, up to the parenthesis that closes them.
#[tactic(auto, unfolding(fx_grammar::specs::Ranges::conditions_at))]
pub fn all_conditions<'t, 'a>(
    end: u32,
    conditions: Conditions<'a>,
    tokens: &'t [Token<'a>],
) -> Parsed<'t, 'a, Conditions<'a>>
    requires open { 0 < conditions.depth }
    requires room { conditions.depth + length tokens.now < 2 ^ 63 }
    ensures value { GivesParsed (λ x. (conditions_in x.0, lexemes x.1.now)) result
        (conditions_at end (conditions_in conditions.entry) (lexemes tokens.now)) }
    ensures shorter { IfOk result (λ x. length x.1.now < length tokens.now) }
{
    let (mut now, mut rest) = conditions_step(end, conditions, tokens)?;
    'conditions: while now.depth != 0 {
        let (more, after) = conditions_step(end, now, rest)?;
        now = more;
        rest = after;
    }
    Ok((now, rest))
}
