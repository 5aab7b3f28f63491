//! The smallest steps over tokens: what stands next, a token of a sort, a number, a name.
//!
//! A step gives its value and the tokens behind it. The trap: at the end of the tokens the fault is told at the text's
//! length.
ghost use Rattle.std.specs.Prelude.{◌≡◌, ◌≤◌, ◌<◌, length, drop, IfOk, codes};
ghost use Rattle.std.specs.Prelude.{bytes_eq};
ghost use Rattle.fx_lexer.specs.Faults.{GivesParsed};
ghost use Rattle.fx_lexer.specs.Tokens.{lexeme_of};
ghost use Rattle.fx_cursor.specs.Views.{lexemes};
ghost use Rattle.fx_cursor.specs.Texts.{numeral_decimal};
ghost use Rattle.fx_grammar.specs.Heads.{◌==ₕ◌};
ghost use Rattle.fx_grammar.specs.Steps.{next_head, is_fresh, next_place, wrong, want, real_at, numeral_at, signed_at, past_semicolon};

use crate::numeral::Numeral;
use fx_grammar::{Head, head_of};
use fx_lexer::{SourceFault, SourceKind, Token};

/// A value and the tokens behind it.
pub type Parsed<'t, 'a, T> = Result<(T, &'t [Token<'a>]), SourceFault>;

/// What stands next.
pub fn peek(tokens: &[Token<'_>]) -> Head
    ensures { result ≡ next_head (lexemes tokens.now) }
{
    match tokens.first() {
        Some(token) => head_of(token),
        None => Head::End,
    }
}

/// Whether this stands next.
pub fn next_is(head: Head, tokens: &[Token<'_>]) -> bool
    ensures { result ≡ (next_head (lexemes tokens.now) ==ₕ head) }
{
    peek(tokens) == head
}

/// Whether the next token is the first on its line.
pub fn is_fresh(tokens: &[Token<'_>]) -> bool
    ensures { result ≡ is_fresh (lexemes tokens.now) }
{
    match tokens.first() {
        Some(token) => token.fresh,
        None => false,
    }
}

/// Where the next token begins, or the text's end.
pub fn place_at(end: u32, tokens: &[Token<'_>]) -> u32
    ensures { result ≡ next_place end (lexemes tokens.now) }
{
    match tokens.first() {
        Some(token) => token.at,
        None => end,
    }
}

/// The tokens behind the next one.
pub fn behind<'t, 'a>(tokens: &'t [Token<'a>]) -> &'t [Token<'a>]
    ensures value { lexemes result.now ≡ drop 1 (lexemes tokens.now) }
    ensures shorter { length result.now ≤ length tokens.now }
{
    if tokens.is_empty() {
        return tokens;
    }
    &tokens[1..]
}

/// The fault of a token that can't come next, or of the end.
pub fn wrong(end: u32, tokens: &[Token<'_>]) -> SourceFault
    ensures { result ≡ wrong end (lexemes tokens.now) }
{
    match tokens.first() {
        Some(token) if head_of(token) == Head::Unsupported => {
            SourceFault::at(token.at, SourceKind::Unsupported)
        }
        Some(token) => SourceFault::at(token.at, SourceKind::Unexpected),
        None => SourceFault::at(end, SourceKind::EndOfText),
    }
}

/// The next token, which has to be of this sort.
#[tactic(auto, unfolding(fx_grammar::specs::Steps::want))]
pub fn want<'t, 'a>(end: u32, head: Head, tokens: &'t [Token<'a>]) -> Parsed<'t, 'a, Token<'a>>
    ensures value { GivesParsed (λ x. (lexeme_of x.0, lexemes x.1.now)) result (want end head (lexemes tokens.now)) }
    ensures shorter { IfOk result (λ x. length x.1.now < length tokens.now) }
{
    match tokens.split_first() {
        Some((token, rest)) => {
            if head_of(token) == head {
                Ok((*token, rest))
            } else {
                Err(wrong(end, tokens))
            }
        }
        None => Err(SourceFault::at(end, SourceKind::EndOfText)),
    }
}

fn is_real(text: &str) -> bool
    ensures { result ≡ bytes_eq text.now (codes "Real") }
{
    text == "Real"
}

/// The name `Real`.
#[tactic(auto, unfolding(fx_grammar::specs::Steps::real_at))]
pub fn real<'t, 'a>(end: u32, tokens: &'t [Token<'a>]) -> Parsed<'t, 'a, Token<'a>>
    ensures value { GivesParsed (λ x. (lexeme_of x.0, lexemes x.1.now)) result (real_at end (lexemes tokens.now)) }
    ensures shorter { IfOk result (λ x. length x.1.now < length tokens.now) }
{
    let (token, rest) = want(end, Head::Name, tokens)?;
    if !is_real(token.text) {
        return Err(SourceFault::at(token.at, SourceKind::Unexpected));
    }
    Ok((token, rest))
}

/// A number.
#[tactic(auto, unfolding(fx_grammar::specs::Steps::numeral_at))]
pub fn number<'t, 'a>(end: u32, tokens: &'t [Token<'a>]) -> Parsed<'t, 'a, Numeral<'a>>
    ensures value { GivesParsed (λ x. (numeral_decimal x.0, lexemes x.1.now)) result
        (numeral_at end (lexemes tokens.now)) }
    ensures shorter { IfOk result (λ x. length x.1.now < length tokens.now) }
{
    let (token, rest) = want(end, Head::Number, tokens)?;
    let numeral = Numeral {
        is_negative: false,
        digits: token.text,
    };
    Ok((numeral, rest))
}

/// A number, with or without a minus.
#[tactic(auto, unfolding(fx_grammar::specs::Steps::signed_at, fx_grammar::specs::Steps::numeral_at))]
pub fn signed<'t, 'a>(end: u32, tokens: &'t [Token<'a>]) -> Parsed<'t, 'a, Numeral<'a>>
    ensures value { GivesParsed (λ x. (numeral_decimal x.0, lexemes x.1.now)) result
        (signed_at end (lexemes tokens.now)) }
    ensures shorter { IfOk result (λ x. length x.1.now < length tokens.now) }
{
    if peek(tokens) == Head::Minus {
        let (token, rest) = want(end, Head::Number, behind(tokens))?;
        let numeral = Numeral {
            is_negative: true,
            digits: token.text,
        };
        Ok((numeral, rest))
    } else {
        number(end, tokens)
    }
}

/// Without the semicolon that may come next.
pub fn past_semicolon<'t, 'a>(tokens: &'t [Token<'a>]) -> &'t [Token<'a>]
    ensures value { lexemes result.now ≡ past_semicolon (lexemes tokens.now) }
    ensures shorter { length result.now ≤ length tokens.now }
{
    if peek(tokens) == Head::Semicolon {
        return behind(tokens);
    }
    tokens
}
