// Numbers and tuples in exactly the spelling that scripts have.
ghost use Rattle.std.specs.Prelude.{◌≡◌, ℕ, List, IfSome, IfNone};
ghost use Rattle.call_script.specs.Number.{IsNumber, IsTuple};

use crate::cut::cut;
use decimal_text::parse_decimal;

/// The number of which this is the text.
pub(crate) fn number_of(text: &[u8]) -> Option<u64>
    ensures found { IfSome result (λ n. IsNumber text.now n) }
    ensures none { IfNone result ((n : ℕ) → IsNumber text.now n → ⊥) }
{
    parse_decimal(text, u64::MAX)
}

/// The words of which this is the text: numbers with commas between them, and zeros behind.
pub(crate) fn tuple_of<const N: usize>(text: &[u8]) -> Option<[u64; N]>
    ensures found { IfSome result (λ words. IsTuple N text.now words) }
    ensures none { IfNone result ((words : List ℕ) → IsTuple N text.now words → ⊥) }
{
    let mut words = [0; N];
    let mut count = 0;
    let mut rest = Some(text);
    'numbers: while let Some(bytes) = rest {
        if count >= N {
            return None;
        }
        let (number, after) = cut(bytes, b',');
        let Some(number) = number_of(number) else {
            return None;
        };
        words[count] = number;
        count += 1;
        rest = after;
    }
    Some(words)
}
