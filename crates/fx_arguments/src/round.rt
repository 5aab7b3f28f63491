//! The way to round of an option.
ghost use Rattle.std.specs.Prelude.{◌≡◌};
ghost use Rattle.std.specs.Option.{option_copied};
ghost use Rattle.fx_arguments.specs.Rounding.{round_named, round_given};

use fx_wanted::Round;

// The way to round of this name.
fn round_named(text: &str) -> Option<Round>
    ensures { result ≡ round_named text.now }
{
    if text == "floor" {
        Some(Round::Floor)
    } else if text == "nearest" {
        Some(Round::Nearest)
    } else {
        None
    }
}

/// The way to round that is given, and down where none is.
pub fn round_given(text: Option<&str>) -> Option<Round>
    ensures { result ≡ round_given (option_copied text.entry) }
{
    match text {
        Some(text) => round_named(text),
        None => Some(Round::Floor),
    }
}
