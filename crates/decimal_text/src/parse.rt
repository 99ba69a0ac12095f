// Numbers read from decimal digits.
ghost use Rattle.std.specs.Prelude.{◌≡◌, ◌≢◌, ℕ, ◌<◌, ◌≤◌, ◌↔◌, decimal, length, slice_index, IsTrue, IfSome, IfNone, SomeIff};
ghost use Rattle.std.specs.Str.Parse.{IsNumeral, digits_value};

/// The number of one or more digits, where it is at most `most`. Zeros may stand first.
pub fn parse_digits(text: &[u8], most: u64) -> Option<u64>
    ensures { SomeIff result (IsNumeral 10 text.now × (digits_value 10 text.now ≤ most))
        (digits_value 10 text.now) }
{
    if text.is_empty() {
        return None;
    }
    let mut value: u128 = 0;
    for digit in text {
        if !digit.is_ascii_digit() {
            return None;
        }
        value = value * 10 + u128::from(*digit - b'0');
        if value > u128::from(most) {
            return None;
        }
    }
    Some(value as u64)
}

/// The number that is spelled just so, with no zero before it, where it is at most `most`.
pub fn parse_decimal(text: &[u8], most: u64) -> Option<u64>
    ensures spelled { IfSome result (λ number. text.now ≡ decimal number) }
    ensures at_most { IfSome result (λ number. number ≤ most) }
    ensures none { IfNone result ((number : ℕ) → number ≤ most → text.now ≢ decimal number) }
{
    if has_needless_zero(text) {
        return None;
    }
    parse_digits(text, most)
}

fn has_needless_zero(text: &[u8]) -> bool
    ensures { IsTrue result ↔ (slice_index text.now 0 ≡ 48) × (1 < length text.now) }
{
    text.len() > 1 && text[0] == b'0'
}
