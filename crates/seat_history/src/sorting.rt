// Pairs by rising key, each key once.
ghost use Rattle.std.specs.Prelude.{◌≡◌, All, IfOk, OnOk, ℕ, reverse};
ghost use Rattle.std.specs.List.Sorted.{IsNonDecreasingBy};
ghost use Rattle.seat_history.specs.Key.{key_number};
ghost use Rattle.seat_history.specs.Pairs.{ArePairsOf, IsPairInRange, differs, value_in};

use crate::key::KeyWords;
use crate::words::ValWords;
use std::alloc::{AllocError, Global};

// By rising key; of the pairs of one key the one given last comes first.
pub(crate) fn sort_latest_first(given: &mut Vec<(KeyWords, ValWords)>) -> Result<(), AllocError>
    ensures rising { OnOk result (IsNonDecreasingBy (λ pair. key_number pair.0) given.new.items) }
    ensures latest { OnOk result ((number : ℕ) → value_in given.new.items number ≡ value_in (reverse given.old.items) number) }
{
    given.reverse();
    given.sort_by_key(|pair| pair.0.number())?;
    Ok(())
}

// The first pair of each key.
pub(crate) fn first_pairs(
    alloc: Global,
    sorted: &[(KeyWords, ValWords)],
) -> Result<Vec<(KeyWords, ValWords)>, AllocError>
    requires { IsNonDecreasingBy (λ pair. key_number pair.0) sorted.now }
    ensures pairs { IfOk result (λ pairs. ArePairsOf (value_in sorted.now) pairs.items) }
    ensures in_range { IfOk result (λ pairs. All IsPairInRange pairs.items) }
{
    let mut pairs = Vec::with_capacity(alloc, sorted.len())?;
    let mut last = None;
    for pair in sorted {
        let pair = in_range(*pair);
        let number = pair.0.number();
        if differs(last, number) {
            pairs.push(pair)?;
            last = Some(number);
        }
    }
    Ok(pairs)
}

fn in_range(pair: (KeyWords, ValWords)) -> (KeyWords, ValWords)
    ensures same { result ≡ pair }
    ensures in_range { IsPairInRange result }
{
    pair
}

// Whether a number isn't the last one.
fn differs(last: Option<u128>, number: u128) -> bool
    ensures { result ≡ differs last number }
{
    match last {
        Some(last) => last != number,
        None => true,
    }
}
