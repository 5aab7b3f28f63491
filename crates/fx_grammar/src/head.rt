//! What the grammar sees of a token.
//!
//! A rule asks for the next head alone: which sign or word it is, or that a name or a number stands there.

ghost use Rattle.std.specs.Prelude.{◌≡◌};
ghost use Rattle.fx_lexer.specs.Tokens.{lexeme_of};
ghost use Rattle.fx_grammar.specs.Heads.{head_of, sign_head, relation_of, word_head};

use fx_lexer::{Token, TokenKind};

/// What the grammar sees of a token.
#[derive(Clone, Copy, Debug, PartialEq, Eq)]
pub enum Head {
    /// No token: the text is over.
    End,
    /// A name.
    Name,
    /// A number.
    Number,
    Plus,
    Minus,
    Star,
    Slash,
    Open,
    Close,
    OpenBrace,
    CloseBrace,
    Colon,
    Comma,
    Dot,
    Semicolon,
    Equals,
    Arrow,
    PlusMinus,
    And,
    Below,
    AtMost,
    Above,
    AtLeast,
    Import,
    Object,
    Def,
    Val,
    Require,
    Ensuring,
    /// A reserved word of the wider language that this one leaves out.
    Unsupported,
}

/// A sign of relations and of definitions.
fn relation(text: &str) -> Head
    ensures { result ≡ relation_of text.now }
{
    match text {
        "<" => Head::Below,
        "<=" => Head::AtMost,
        ">" => Head::Above,
        ">=" => Head::AtLeast,
        "+/-" => Head::PlusMinus,
        "&&" => Head::And,
        "=>" => Head::Arrow,
        "=" => Head::Equals,
        _ => Head::End,
    }
}

/// A sign of operations, or a mark.
fn sign(text: &str) -> Head
    ensures { result ≡ sign_head text.now }
{
    match text {
        "+" => Head::Plus,
        "-" => Head::Minus,
        "*" => Head::Star,
        "/" => Head::Slash,
        "(" => Head::Open,
        ")" => Head::Close,
        "{" => Head::OpenBrace,
        "}" => Head::CloseBrace,
        ":" => Head::Colon,
        "," => Head::Comma,
        "." => Head::Dot,
        ";" => Head::Semicolon,
        _ => relation(text),
    }
}

/// A reserved word.
fn word(text: &str) -> Head
    ensures { result ≡ word_head text.now }
{
    match text {
        "import" => Head::Import,
        "object" => Head::Object,
        "def" => Head::Def,
        "val" => Head::Val,
        "require" => Head::Require,
        "ensuring" => Head::Ensuring,
        _ => Head::Unsupported,
    }
}

/// The head of a token.
#[tactic(auto, unfolding(crate::specs::Heads::head_of))]
pub fn head_of(token: &Token<'_>) -> Head
    ensures { result ≡ head_of (lexeme_of token.now) }
{
    match token.kind {
        TokenKind::Name => Head::Name,
        TokenKind::Number => Head::Number,
        TokenKind::Word => word(token.text),
        TokenKind::Sign => sign(token.text),
    }
}
