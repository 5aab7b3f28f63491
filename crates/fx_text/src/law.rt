//! What may be believed of the readers and printers: each value has one spelling.
//!
//! Each function's contract is a law of the definitions in `specs/`, and its body is empty: nothing here runs. What a
//! reader takes is what is printed of the value, and the value is in its range; what is printed of a value in its range
//! is read again, whatever follows.

ghost use Rattle.fx_text.specs.Laws.{WholeTakes, WholeAgain, IntegerTakes, IntegerAgain, WordTakes, WordAgain, NumberLaw, PlaceLaw, CountTextLaw, DyadicLaw, DyadicsLaw, IntervalLaw, LineLaw, LineTextLaw};

/// A number without sign has one spelling.
pub fn whole_law()
    ensures takes { WholeTakes }
    ensures again { WholeAgain }
{}

/// A number with its sign has one spelling.
pub fn integer_law()
    ensures takes { IntegerTakes }
    ensures again { IntegerAgain }
{}

/// A fixed word is read where it stands, and nowhere else.
pub fn word_law()
    ensures takes { WordTakes }
    ensures again { WordAgain }
{}

/// A whole number has one spelling.
pub fn number_law()
    ensures { NumberLaw }
{}

/// A place has one spelling.
pub fn place_law()
    ensures { PlaceLaw }
{}

/// A count has one spelling.
pub fn count_law()
    ensures { CountTextLaw }
{}

/// A dyadic has one spelling.
pub fn dyadic_law()
    ensures { DyadicLaw }
{}

/// A row of dyadics has one spelling.
pub fn dyadics_law()
    ensures { DyadicsLaw }
{}

/// An interval has one spelling.
pub fn interval_law()
    ensures { IntervalLaw }
{}

/// The fields of a line, which have no space and no line feed, have one line.
pub fn line_law()
    ensures { LineLaw }
{}

/// What the printers write one after the other is the line's text.
pub fn line_text_law()
    ensures { LineTextLaw }
{}
