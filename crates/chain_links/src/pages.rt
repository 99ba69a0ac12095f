//! The record in a node's words.
ghost use Rattle.std.specs.Prelude.{◌≡◌, ◌++◌, ◌∷◌, [], drop, slice_index};
ghost use Rattle.std.specs.Bool.{Decides};
ghost use Rattle.seat_history.specs.Contents.{zeros};
ghost use Rattle.seat_history.specs.Key.{key_number};
ghost use Rattle.seat_history.specs.declared.words.TheConstants.{WIDTH};
ghost use Rattle.step_rules.specs.declared.layout.TheConstants.{END};
ghost use Rattle.step_rules.specs.Records.{key_in, pair, record_in, with_value};

use node_pool::NodeWords;
use seat_history::{KeyWords, VALUE_WIDTH, ValWords, WIDTH};
use step_rules::{END, NODE_WIDTH};

/// Whether the record in a node's words has the key.
pub fn has_key(words: &NodeWords, key: KeyWords) -> bool
    ensures { Decides result (key_in (record_in words.now) ≡ key_number key) }
{
    words[0] == key.k0 && words[1] == key.k1
}

/// The value of the record in a node's words.
pub fn value_of(words: &NodeWords) -> ValWords
    ensures { result ≡ drop 2 (record_in words.now) }
{
    let mut val = [0; VALUE_WIDTH];
    val.copy_from_slice(&words[2..WIDTH]);
    val
}

/// The words of a node with this pair and this next word.
pub(crate) fn words_of(key: KeyWords, val: ValWords, next: u64) -> NodeWords
    ensures { result ≡ pair key val ++ next ∷ [] }
{
    let mut words = [0; NODE_WIDTH];
    words[0] = key.k0;
    words[1] = key.k1;
    words[2..WIDTH].copy_from_slice(&val);
    words[WIDTH] = next;
    words
}

/// The words of a node with the record that these words have, and this next word.
pub(crate) fn with_next(words: &NodeWords, next: u64) -> NodeWords
    ensures { result ≡ record_in words.now ++ next ∷ [] }
{
    let mut copy = [0; NODE_WIDTH];
    copy[..WIDTH].copy_from_slice(&words[..WIDTH]);
    copy[WIDTH] = next;
    copy
}

/// The words of a node with the key and the next word that these words have, and this value.
pub(crate) fn valued(words: &NodeWords, val: ValWords) -> NodeWords
    ensures { result ≡ with_value (record_in words.now) val ++ slice_index words.now WIDTH ∷ [] }
{
    let key = KeyWords {
        k0: words[0],
        k1: words[1],
    };
    words_of(key, val, words[WIDTH])
}

/// The words of a node without a record, after which none comes.
pub(crate) fn no_record() -> NodeWords
    ensures { result ≡ zeros ++ END ∷ [] }
{
    let mut words = [0; NODE_WIDTH];
    words[WIDTH] = END;
    words
}
