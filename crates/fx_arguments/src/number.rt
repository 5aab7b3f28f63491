//! The values of options, as texts and numbers.
ghost use Rattle.std.specs.Prelude.{◌≡◌, ◌≤◌, Contains, IfSome, Some, None, if◌then◌else◌, nat_le};
ghost use Rattle.std.specs.Char.{is_ascii_digit};
ghost use Rattle.std.specs.List.{list_all};
ghost use Rattle.std.specs.Option.{option_copied};
ghost use Rattle.fx_model.specs.LawfulProgram.{widths};
ghost use Rattle.fx_arguments.specs.Grammar.{is_value};
ghost use Rattle.fx_arguments.specs.Numbers.{demo_number, is_numeral, number_up_to, number_or, units_given, width_given};

use fx_word::is_width;

/// Whether an option may have this value.
pub fn is_value(text: &str) -> bool
    ensures { result ≡ is_value text.now }
{
    match text.as_bytes() {
        [] => false,
        [first, ..] => *first != b'-',
    }
}

fn are_digits(text: &str) -> bool
    ensures { result ≡ list_all is_ascii_digit text.now }
{
    text.as_bytes().iter().all(|byte| byte.is_ascii_digit())
}

// Whether it is 1 to 20 decimal digits.
fn is_numeral(text: &str) -> bool
    ensures { result ≡ is_numeral text.now }
{
    if text.is_empty() || text.len() > 20 {
        return false;
    }
    are_digits(text)
}

// The number, unless it is above the limit.
fn within(number: u64, limit: u64) -> Option<u64>
    ensures number { result ≡ (if nat_le number limit then Some number else None) }
    ensures limited { IfSome result (λ n. n ≤ limit) }
{
    if number <= limit { Some(number) } else { None }
}

// The number of a numeral. The digits are tested first, since `parse` takes a plus.
fn number_up_to(text: &str, limit: u64) -> Option<u64>
    ensures number { result ≡ number_up_to limit text.now }
    ensures limited { IfSome result (λ n. n ≤ limit) }
{
    if !is_numeral(text) {
        return None;
    }
    match text.parse::<u64>() {
        Ok(number) => within(number, limit),
        Err(_) => None,
    }
}

/// The number of an option, and another one where it isn't given.
pub fn number_or(text: Option<&str>, other: u64, limit: u64) -> Option<u64>
    requires { other ≤ limit }
    ensures number { result ≡ number_or other limit (option_copied text.entry) }
    ensures limited { IfSome result (λ n. n ≤ limit) }
{
    match text {
        Some(text) => number_up_to(text, limit),
        None => Some(other),
    }
}

/// The number of a demonstration.
pub fn demo_number(text: &str) -> Option<u32>
    ensures number { result ≡ demo_number text.now }
    ensures limited { IfSome result (λ n. (1 ≤ n) × (n ≤ 500)) }
{
    let number = number_up_to(text, 500)?;
    if number >= 1 {
        Some(number as u32)
    } else {
        None
    }
}

/// The number of units of an option.
pub fn units_given(text: Option<&str>) -> Option<u32>
    ensures units { result ≡ units_given (option_copied text.entry) }
    ensures limited { IfSome result (λ n. (1 ≤ n) × (n ≤ 1024)) }
{
    let number = number_up_to(text?, 1_024)?;
    if number == 0 {
        return None;
    }
    Some(number as u32)
}

/// The width of words of an option.
pub fn width_given(text: Option<&str>) -> Option<u32>
    ensures width { result ≡ width_given (option_copied text.entry) }
    ensures known { IfSome result (λ n. Contains widths n) }
{
    let bits = number_up_to(text?, 64)? as u32;
    if is_width(bits) { Some(bits) } else { None }
}
