//! Expressions, rule by rule: atoms, factors, terms and sums, which group to the left.
//!
//! The recursion is that of the parentheses, at most 200. The trap: outside all of them a minus that begins its line
//! doesn't go on, and a parenthesis behind a name on its line makes a call.
ghost use Rattle.std.specs.Prelude.{◌≡◌, ◌≤◌, ◌<◌, ◌^◌, length, IfOk};
ghost use Rattle.fx_lexer.specs.Faults.{GivesParsed};
ghost use Rattle.fx_lexer.specs.Tokens.{lexeme_of};
ghost use Rattle.fx_cursor.specs.Views.{lexemes};
ghost use Rattle.fx_expressions.specs.Views.{operand_of, known_in};
ghost use Rattle.fx_expr.specs.TreeOf.{tree};
ghost use Rattle.fx_grammar.specs.Expressions.{is_call, meant, named, closed, opened, atom_of, behind_minus, factor_of, term_of, sum_from, expr_at, inner_at, goes_on_product, goes_on_sum};
ghost use Rattle.fx_grammar.specs.Operands as grammar;

use crate::operand::{Context, Operand, joined, leaf, literal, negation};
use fx_cursor::{Parsed, behind, decimal, is_fresh, minus, peek, place, want, wrong};
use fx_expr::Expr;
use fx_grammar::{Head, head_of};
use fx_lexer::{SourceFault, SourceKind, Token};
use fx_num::HEIGHT_LIMIT;

fn is_call(tokens: &[Token<'_>]) -> bool
    ensures { result ≡ is_call (lexemes tokens.now) }
{
    peek(tokens) == Head::Open && !is_fresh(tokens)
}

fn goes_on_product(tokens: &[Token<'_>]) -> bool
    ensures { (left : grammar.Operand) → result ≡ goes_on_product left (lexemes tokens.now) }
{
    let head = peek(tokens);
    head == Head::Star || head == Head::Slash
}

fn goes_on_sum(outside: bool, tokens: &[Token<'_>]) -> bool
    ensures { (left : grammar.Operand) → result ≡ goes_on_sum outside left (lexemes tokens.now) }
{
    let head = peek(tokens);
    head == Head::Plus || (head == Head::Minus && !(outside && is_fresh(tokens)))
}

/// What the name at a place stands for.
fn meant(context: &Context<'_>, place: u32) -> Expr
    ensures { tree result ≡ meant (known_in context.now) place }
{
    if place < context.inputs {
        Expr::Input(place)
    } else if place - context.inputs < context.states {
        Expr::State(place - context.inputs)
    } else {
        Expr::Temp(place - context.inputs - context.states)
    }
}

/// A name, which is no call.
fn named<'t, 'a>(
    context: &Context<'_>,
    token: &Token<'a>,
    rest: &'t [Token<'a>],
) -> Parsed<'t, 'a, Operand>
    requires { length context.now.names.now < 2 ^ 32 }
    ensures value { GivesParsed (λ x. (operand_of x.0, lexemes x.1.now)) result
        (named (known_in context.now) (lexeme_of token.now) (lexemes rest.now)) }
    ensures shorter { IfOk result (λ x. length x.1.now ≤ length rest.now) }
{
    if is_call(rest) {
        return Err(SourceFault::at(token.at, SourceKind::Unsupported));
    }
    match place(context.names, token.text) {
        Some(k) => Ok((leaf(meant(context, k as u32), 0), rest)),
        None => Err(SourceFault::at(token.at, SourceKind::UnknownName)),
    }
}

/// The parenthesis that closes.
#[tactic(auto, unfolding(fx_grammar::specs::Expressions::closed))]
fn closed<'t, 'a>(
    context: &Context<'_>,
    operand: Operand,
    tokens: &'t [Token<'a>],
) -> Parsed<'t, 'a, Operand>
    ensures value { GivesParsed (λ x. (operand_of x.0, lexemes x.1.now)) result
        (closed (known_in context.now) (operand_of operand) (lexemes tokens.now)) }
    ensures shorter { IfOk result (λ x. length x.1.now < length tokens.now) }
{
    let (_, rest) = want(context.end, Head::Close, tokens)?;
    Ok((operand, rest))
}

/// What stands behind an open parenthesis, where so many may still be opened.
#[cycle(parser)]
#[tactic(auto, using(crate::proofs::Rooms::opened_zero, crate::proofs::Rooms::opened_more))]
fn opened<'t, 'a>(
    context: &Context<'_>,
    room: u32,
    token: &Token<'a>,
    rest: &'t [Token<'a>],
) -> Parsed<'t, 'a, Operand>
    requires { length context.now.names.now < 2 ^ 32 }
    ensures value { GivesParsed (λ x. (operand_of x.0, lexemes x.1.now)) result
        (opened (known_in context.now) (inner_at (known_in context.now) room) (lexeme_of token.now)
        (lexemes rest.now)) }
    ensures shorter { IfOk result (λ x. length x.1.now ≤ length rest.now) }
{
    if room == 0 {
        return Err(SourceFault::at(token.at, SourceKind::TooDeep));
    }
    let (operand, rest) = sum(context, false, room - 1, rest)?;
    closed(context, operand, rest)
}

#[cycle(parser)]
#[tactic(auto, unfolding(fx_grammar::specs::Expressions::atom_of))]
fn atom<'t, 'a>(
    context: &Context<'_>,
    room: u32,
    tokens: &'t [Token<'a>],
) -> Parsed<'t, 'a, Operand>
    requires { length context.now.names.now < 2 ^ 32 }
    ensures value { GivesParsed (λ x. (operand_of x.0, lexemes x.1.now)) result
        (atom_of (known_in context.now) (inner_at (known_in context.now) room) (lexemes tokens.now)) }
    ensures shorter { IfOk result (λ x. length x.1.now < length tokens.now) }
{
    let Some((token, rest)) = tokens.split_first() else {
        return Err(SourceFault::at(context.end, SourceKind::EndOfText));
    };
    match head_of(token) {
        Head::Number => Ok((literal(decimal(token.text)), rest)),
        Head::Name => named(context, token, rest),
        Head::Open => opened(context, room, token, rest),
        _ => Err(wrong(context.end, tokens)),
    }
}

/// What stands behind a minus.
#[cycle(parser)]
#[tactic(auto, unfolding(fx_grammar::specs::Expressions::behind_minus))]
fn negated<'t, 'a>(
    context: &Context<'_>,
    room: u32,
    tokens: &'t [Token<'a>],
) -> Parsed<'t, 'a, Operand>
    requires { length context.now.names.now < 2 ^ 32 }
    ensures value { GivesParsed (λ x. (operand_of x.0, lexemes x.1.now)) result
        (behind_minus (known_in context.now) (inner_at (known_in context.now) room) (lexemes tokens.now)) }
    ensures shorter { IfOk result (λ x. length x.1.now < length tokens.now) }
{
    if peek(tokens) == Head::Number {
        let (token, rest) = want(context.end, Head::Number, tokens)?;
        return Ok((literal(minus(decimal(token.text))), rest));
    }
    let (operand, rest) = atom(context, room, tokens)?;
    let operand = negation(context.alloc, operand)?;
    Ok((operand, rest))
}

#[cycle(parser)]
#[tactic(auto, unfolding(fx_grammar::specs::Expressions::factor_of))]
fn factor<'t, 'a>(
    context: &Context<'_>,
    room: u32,
    tokens: &'t [Token<'a>],
) -> Parsed<'t, 'a, Operand>
    requires { length context.now.names.now < 2 ^ 32 }
    ensures value { GivesParsed (λ x. (operand_of x.0, lexemes x.1.now)) result
        (factor_of (known_in context.now) (inner_at (known_in context.now) room) (lexemes tokens.now)) }
    ensures shorter { IfOk result (λ x. length x.1.now < length tokens.now) }
{
    if peek(tokens) == Head::Minus {
        negated(context, room, behind(tokens))
    } else {
        atom(context, room, tokens)
    }
}

#[cycle(parser)]
#[tactic(auto, unfolding(fx_grammar::specs::Expressions::term_of))]
fn term<'t, 'a>(
    context: &Context<'_>,
    room: u32,
    tokens: &'t [Token<'a>],
) -> Parsed<'t, 'a, Operand>
    requires { length context.now.names.now < 2 ^ 32 }
    ensures value { GivesParsed (λ x. (operand_of x.0, lexemes x.1.now)) result
        (term_of (known_in context.now) (inner_at (known_in context.now) room) (lexemes tokens.now)) }
    ensures shorter { IfOk result (λ x. length x.1.now < length tokens.now) }
{
    let (mut left, mut rest) = factor(context, room, tokens)?;
    while goes_on_product(rest) {
        let op = peek(rest);
        let (right, after) = factor(context, room, behind(rest))?;
        left = joined(context.alloc, op, left, right)?;
        rest = after;
    }
    Ok((left, rest))
}

/// An expression, in which so many parentheses may still be opened.
#[cycle(parser)]
#[tactic(auto, unfolding(fx_grammar::specs::Expressions::sum_from))]
fn sum<'t, 'a>(
    context: &Context<'_>,
    outside: bool,
    room: u32,
    tokens: &'t [Token<'a>],
) -> Parsed<'t, 'a, Operand>
    requires { length context.now.names.now < 2 ^ 32 }
    ensures value { GivesParsed (λ x. (operand_of x.0, lexemes x.1.now)) result
        (sum_from (known_in context.now) outside (inner_at (known_in context.now) room) (lexemes tokens.now)) }
    ensures shorter { IfOk result (λ x. length x.1.now < length tokens.now) }
{
    let (mut left, mut rest) = term(context, room, tokens)?;
    while goes_on_sum(outside, rest) {
        let op = peek(rest);
        let (right, after) = term(context, room, behind(rest))?;
        left = joined(context.alloc, op, left, right)?;
        rest = after;
    }
    Ok((left, rest))
}

/// The expression at the front, and the tokens behind it.
pub fn expression<'t, 'a>(
    context: &Context<'_>,
    outside: bool,
    tokens: &'t [Token<'a>],
) -> Parsed<'t, 'a, Operand>
    requires { length context.now.names.now < 2 ^ 32 }
    ensures value { GivesParsed (λ x. (operand_of x.0, lexemes x.1.now)) result
        (expr_at (known_in context.now) outside 200 (lexemes tokens.now)) }
    ensures shorter { IfOk result (λ x. length x.1.now < length tokens.now) }
{
    sum(context, outside, HEIGHT_LIMIT, tokens)
}
