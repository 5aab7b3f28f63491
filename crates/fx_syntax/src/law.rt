//! What may be believed of the definition that reads tokens: it reads the sources of the grammar, and no others.
//!
//! Each function's contract is a law of the definitions in `specs/`, and its body is empty: nothing here runs.

ghost use Rattle.fx_syntax.specs.Laws.{ReadIsSpelled, SpelledIsRead, OneMeaning, TextLaw, WantedLaw};

/// What is read of tokens is a source of the grammar, and has the functions that the grammar gives it.
pub fn read_is_spelled()
    ensures { ReadIsSpelled }
{}

/// A source of the grammar is read, and has the functions that the grammar gives it.
pub fn spelled_is_read()
    ensures { SpelledIsRead }
{}

/// A source has the same functions whichever way the grammar is followed.
pub fn one_meaning()
    ensures { OneMeaning }
{}

/// A text has exactly the functions of the source by whose tokens it is laid out.
pub fn text_law()
    ensures { TextLaw }
{}

/// Bytes give exactly the wanted function of their source: the only one, or the one of the name.
pub fn wanted_law()
    ensures { WantedLaw }
{}
