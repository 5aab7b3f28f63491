//! The law of reading decimals.
//!
//! `read_decimal` answers `decimal_of` of the text, which is a definition by functions on lists. What that means is
//! said here in the words of the grammar: which texts are numerals, that each is one numeral at most, and that the
//! reading is the decimal of its value.

ghost use Rattle.fx_fraction.specs.ReadingLaw.{ReadingLaw};

/// What `read_decimal` answers is the value that the text writes, in the words of the grammar.
pub fn reading_law()
    ensures { ReadingLaw }
{}
