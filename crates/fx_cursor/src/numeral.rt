//! Numbers as they stand in the text.
//!
//! What is read keeps the digits' slice, and the decimal is read of it where it is used. The trap: a `Decimal` beside a
//! slice of the text isn't covered by the borrow checker, so a `Numeral` can't keep its own.
ghost use Rattle.std.specs.Prelude.{◌≡◌};
ghost use Rattle.fx_grammar.specs.Steps.{decimal, negative_decimal};
ghost use Rattle.fx_cursor.specs.Texts.{numeral_decimal};

use fx_fraction::{Decimal, read_decimal};

/// A number of the text, with or without a minus before it.
#[derive(Clone, Copy, Debug)]
pub struct Numeral<'a> {
    /// Whether a minus stands before it.
    pub is_negative: bool,
    /// Its bytes, where they stand in the text.
    pub digits: &'a str,
}

/// The number that a token of the lexer spells.
#[tactic(auto, unfolding(fx_grammar::specs::Steps::decimal))]
pub fn decimal(text: &str) -> Decimal
    ensures { result ≡ decimal text.now }
{
    match read_decimal(text.as_bytes()) {
        Ok(value) => value,
        Err(_) => Decimal { a: 0, b: 0 },
    }
}

/// The negative number.
pub fn minus(x: Decimal) -> Decimal
    ensures { result ≡ negative_decimal x }
{
    Decimal { a: -x.a, b: x.b }
}

/// The number's value.
pub fn numeral_value(number: &Numeral<'_>) -> Decimal
    ensures { result ≡ numeral_decimal number.now }
{
    let value = decimal(number.digits);
    if number.is_negative {
        minus(value)
    } else {
        value
    }
}
