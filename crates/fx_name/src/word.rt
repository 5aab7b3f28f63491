//! Which texts are names, and the words that none is.
ghost use Rattle.std.specs.Prelude.{◌≡◌};
ghost use Rattle.std.specs.List.{list_all};
ghost use Rattle.fx_model.specs.Names.{is_letter, is_name, is_reserved, is_word_byte};

/// The words of the grammar, and those of the wider language that it refuses.
const RESERVED_WORDS: [&str; 16] = [
    "import", "object", "def", "val", "require", "ensuring", "if", "else", "while", "for", "match",
    "var", "return", "true", "false", "new",
];

/// A to Z, a to z or `_`.
pub fn is_letter(byte: u8) -> bool
    ensures { result ≡ is_letter byte }
{
    byte.is_ascii_alphabetic() || byte == b'_'
}

/// A letter or digit of a name.
pub fn is_word_byte(byte: u8) -> bool
    ensures { result ≡ is_word_byte byte }
{
    is_letter(byte) || byte.is_ascii_digit()
}

/// The words that no name is.
pub fn is_reserved(word: &[u8]) -> bool
    ensures { result ≡ is_reserved word.now }
{
    RESERVED_WORDS
        .iter()
        .any(|reserved| reserved.as_bytes() == word)
}

fn are_word_bytes(text: &[u8]) -> bool
    ensures { result ≡ list_all is_word_byte text.now }
{
    text.iter().all(|byte| is_word_byte(*byte))
}

/// Whether the text is a name: a letter, and then letters and digits, and no reserved word.
pub fn is_name(text: &[u8]) -> bool
    ensures { result ≡ is_name text.now }
{
    match text {
        [] => false,
        [first, others @ ..] => {
            is_letter(*first) && are_word_bytes(others) && !is_reserved(text)
        }
    }
}
