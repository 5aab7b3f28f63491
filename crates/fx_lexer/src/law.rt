//! What may be believed of the definition of tokens.
//!
//! Each function's contract is a law of the definitions in `specs/`, and its body is empty: nothing here runs.

ghost use Rattle.fx_lexer.specs.Layout.{LayoutLaw};
ghost use Rattle.fx_lexer.specs.Laws.{FaultLaw, PlacesLaw};

/// A text has tokens exactly where it consists of gaps and tokens in turn: of blanks, comments to the end of the line
/// and comments that nest by their grammar, and of the longest tokens. A token is fresh exactly where no token stands
/// before it, or a line feed stands between it and the token before.
pub fn layout_law()
    ensures { LayoutLaw }
{}

/// The places of tokens rise, and a token's text is the text's own at its place. A name is a name, a number has a
/// decimal, a word is reserved, a sign is one of the signs.
pub fn places_law()
    ensures { PlacesLaw }
{}

/// A fault of the definition is lexical, and its place is in the text or at its end.
pub fn fault_law()
    ensures { FaultLaw }
{}
