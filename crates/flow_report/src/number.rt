// Numbers, in exactly the spelling that the report has.
ghost use Rattle.std.specs.Prelude.{◌<◌, ◌≤◌};
ghost use Rattle.flow_report.specs.Reading.{IsFrontOf};
ghost use Rattle.flow_report.specs.Text.{named_then, number_then};

use decimal_text::{cut_at, parse_decimal};

/// The number that the text begins with, where it is at most `most` and the byte `after` follows,
/// and what stands after that byte.
pub(crate) fn read_number(text: &[u8], most: u64, after: u8) -> Option<(u64, &[u8])>
    // no digit
    requires { after < 48 }
    ensures { IsFrontOf (number_then after) (λ n. n ≤ most) text.now result }
{
    let (word, rest) = cut_at(text, after)?;
    let number = parse_decimal(word, most)?;
    Some((number, rest))
}

/// The number that the text begins with after a word and a space, where it is at most `most` and the
/// byte `after` follows.
pub(crate) fn read_named<'a>(
    text: &'a [u8],
    word: &[u8],
    most: u64,
    after: u8,
) -> Option<(u64, &'a [u8])>
    // no digit
    requires { after < 48 }
    ensures { IsFrontOf (named_then after word.now) (λ n. n ≤ most) text.now result }
{
    let text = text.strip_prefix(word)?;
    let text = text.strip_prefix(b" ")?;
    let (number, text) = read_number(text, most, after)?;
    Some((number, text))
}
