ghost use Rattle.std.specs.Prelude.{◌≡◌, ◌≤◌, option_map, IfSome};
ghost use Rattle.flow_tally.specs.Numbers.{decimal_in, number_or, number_up_to};

use decimal_text::parse_digits;

/// The number of a word's digits, where it is in the range.
fn number_within(digits: &[u8], least: u64, most: u64) -> Option<u64>
    ensures number { result ≡ decimal_in least most digits.now }
    ensures at_least { IfSome result (λ n. least ≤ n) }
    ensures at_most { IfSome result (λ n. n ≤ most) }
{
    let number = parse_digits(digits, most)?;
    if number < least {
        return None;
    }
    Some(number)
}

/// The number given, where it is in its range; the default where none is given.
pub(crate) fn number_in(text: Option<&str>, least: u32, most: u32, default: u32) -> Option<u32>
    requires above { least ≤ default }
    requires below { default ≤ most }
    ensures number { result ≡ number_or default least most (option_map (λ s. s.now) text.entry) }
    ensures at_least { IfSome result (λ n. least ≤ n) }
    ensures at_most { IfSome result (λ n. n ≤ most) }
{
    let Some(text) = text else {
        return Some(default);
    };
    let number = number_within(text.as_bytes(), u64::from(least), u64::from(most))?;
    Some(number as u32)
}

/// The number given, where one is given that is no larger than this.
pub(crate) fn number_given(text: Option<&str>, most: u64) -> Option<u64>
    ensures number { result ≡ number_up_to most (option_map (λ s. s.now) text.entry) }
    ensures at_most { IfSome result (λ n. n ≤ most) }
{
    number_within(text?.as_bytes(), 0, most)
}
