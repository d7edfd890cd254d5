//! The numbers of the command.

ghost use Rattle.std.specs.Prelude.{◌≡◌, ℕ};
ghost use Rattle.command_words.specs.Numbers.{number_of, within};

/// The number of one to eight decimal digits, without a sign.
fn number(text: &str) -> Option<u32>
    ensures { result ≡ number_of text.now }
{
    let digits = text.as_bytes();
    if digits.is_empty() || digits.len() > 8 {
        return None;
    }
    let mut value = 0u32;
    for digit in digits {
        if *digit < b'0' || *digit > b'9' {
            return None;
        }
        value = 10 * value + u32::from(*digit - b'0');
    }
    Some(value)
}

/// The number of one to eight decimal digits in this range.
pub(crate) fn number_within(text: &str, least: u32, most: u32) -> Option<u32>
    ensures { result ≡ within least most (number_of text.now) }
{
    let number = number(text)?;
    if least <= number && number <= most {
        Some(number)
    } else {
        None
    }
}
