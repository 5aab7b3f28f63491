//! The words of the command line.
//!
//! There is one flag, and FILE: so few words that slice patterns tell them, and `clap` would say no more.
//! The trap: behind `--` any word is FILE, `--header` too.
ghost use Rattle.std.specs.Prelude.{◌≡◌, option_map};
ghost use Rattle.fx_arguments.specs.Command.{texts};
ghost use Rattle.fx_arguments.specs.Grammar.{is_dashed};
ghost use Rattle.fx_c_command.specs.Words.{plain_request, request_of, request_of_three, request_of_two};
ghost use Rattle.fx_c_command.specs.WordsView.{request_view};

/// A text of a bundle's program.
#[derive(Clone, Copy, Debug, PartialEq, Eq)]
pub enum Text {
    /// The functions.
    Source,
    /// Their declarations, with the points, words and bounds as macros.
    Header,
}

/// What the words ask for.
#[derive(Clone, Copy, Debug, PartialEq, Eq)]
pub struct TextRequest<'a> {
    /// This text,
    pub text: Text,
    /// of the bundle in the file of this name.
    pub file: &'a str,
}

// Whether the word begins with a minus, and isn't the minus alone.
fn is_dashed(word: &str) -> bool
    ensures { result ≡ is_dashed word.now }
{
    match word.as_bytes() {
        [first, _, ..] => *first == b'-',
        _ => false,
    }
}

// Of a FILE that isn't dashed.
fn plain_request<'a>(text: Text, file: &'a str) -> Option<TextRequest<'a>>
    ensures { option_map request_view result ≡ plain_request text file.now }
{
    if is_dashed(file) {
        None
    } else {
        Some(TextRequest { text, file })
    }
}

fn request_of_two<'a>(first: &'a str, second: &'a str) -> Option<TextRequest<'a>>
    ensures { option_map request_view result ≡ request_of_two first.now second.now }
{
    if first == "--" {
        Some(TextRequest {
            text: Text::Source,
            file: second,
        })
    } else if first == "--header" {
        plain_request(Text::Header, second)
    } else if second == "--header" {
        plain_request(Text::Header, first)
    } else {
        None
    }
}

fn request_of_three<'a>(first: &str, second: &str, third: &'a str) -> Option<TextRequest<'a>>
    ensures { option_map request_view result ≡ request_of_three first.now second.now third.now }
{
    if first == "--header" && second == "--" {
        Some(TextRequest {
            text: Text::Header,
            file: third,
        })
    } else {
        None
    }
}

/// What the words ask for, where they ask for anything.
pub fn request_of<'a>(words: &'a [String]) -> Option<TextRequest<'a>>
    ensures { option_map request_view result ≡ request_of (texts words.now) }
{
    match words {
        [file] => plain_request(Text::Source, file.as_str()),
        [first, second] => request_of_two(first.as_str(), second.as_str()),
        [first, second, third] => {
            request_of_three(first.as_str(), second.as_str(), third.as_str())
        }
        _ => None,
    }
}
