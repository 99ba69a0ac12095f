// The text of what comes of a script.
ghost use Rattle.std.specs.Prelude.{◌≡◌, ◌+◌, ◌^◌, ◌++◌, ◌∷◌, [], ◌<◌, ◌≤◌, length, decimal, ℕ, ◌≢◌, All, slice_index, IfSome, IfNone, IfOk, OnOk};
ghost use Rattle.std.specs.List.{flat_map, enumerate_from};
ghost use Rattle.call_script.specs.Text.{driven_text, is_blank, labelled, nodes_line, pair_line, register_line, reply_line, reply_text, trimmed, tuple_text};
ghost use Rattle.seat_history.specs.Pairs.{HasRisingKeys};

use crate::driven::Driven;
use decimal_text::TextWriter;
use seat_history::{KeyWords, Rec, Reply, ValWords};
use std::alloc::{AllocError, Global};
use step_rules::Counts;
use wire_ports::NoMemory;

// The place of the last word that isn't zero.
fn last_place(words: &[u64]) -> Option<usize>
    ensures within { IfSome result (λ last. last < length words.now) }
    ensures found { IfSome result (λ last. slice_index words.now last ≢ 0) }
    ensures zeros { IfSome result (λ last. (i : ℕ) → last < i → i < length words.now → slice_index words.now i ≡ 0) }
    ensures none { IfNone result (All (λ word. word ≡ 0) words.now) }
{
    words.iter().rposition(|word| *word != 0)
}

// The words before the zeros at the end.
fn trimmed_words(words: &[u64]) -> &[u64]
    ensures { result.now ≡ trimmed words.now }
{
    match last_place(words) {
        Some(last) => &words[..=last],
        None => &[],
    }
}

// The words, with a comma before each.
fn add_words(text: &mut TextWriter, words: &[u64]) -> Result<(), AllocError>
    ensures { OnOk result (text.new ≡ text.old ++ flat_map (λ n. 44 ∷ decimal n) words.now) }
{
    for word in words {
        text.push_byte(b',')?;
        text.push_number(*word)?;
    }
    Ok(())
}

#[tactic(auto, unfolding(crate::specs::Text::tuple_text))]
fn add_tuple(text: &mut TextWriter, words: &[u64]) -> Result<(), AllocError>
    ensures { OnOk result (text.new ≡ text.old ++ tuple_text words.now) }
{
    match words {
        [] => Ok(()),
        [first, rest @ ..] => {
            text.push_number(*first)?;
            add_words(text, trimmed_words(rest))
        }
    }
}

#[tactic(auto, unfolding(crate::specs::Text::labelled))]
fn add_labelled(text: &mut TextWriter, label: &str, words: &[u64]) -> Result<(), AllocError>
    ensures { OnOk result (text.new ≡ text.old ++ labelled label.now words.now) }
{
    text.push_bytes(label.as_bytes())?;
    add_tuple(text, words)
}

#[tactic(auto, unfolding(crate::specs::Text::reply_text))]
fn add_reply(text: &mut TextWriter, reply: &Reply) -> Result<(), AllocError>
    ensures { OnOk result (text.new ≡ text.old ++ reply_text reply.now) }
{
    match reply {
        Reply::Words(rec) => add_tuple(text, rec),
        Reply::Done => text.push_bytes(b"done"),
        Reply::Yes => text.push_bytes(b"yes"),
        Reply::No => text.push_bytes(b"no"),
        Reply::Absent => text.push_bytes(b"absent"),
        Reply::Val(val) => add_tuple(text, val),
        Reply::Present(val) => add_labelled(text, "present ", val),
        Reply::Found(val) => add_labelled(text, "found ", val),
        Reply::Gone(val) => add_labelled(text, "gone ", val),
        Reply::Full { need, free } => {
            text.push_bytes(b"full need ")?;
            text.push_number(u64::from(*need))?;
            text.push_bytes(b" free ")?;
            text.push_number(u64::from(*free))
        }
    }
}

fn add_replies(text: &mut TextWriter, replies: &[Reply]) -> Result<(), AllocError>
    ensures { OnOk result (text.new ≡ text.old ++ flat_map reply_line replies.now) }
{
    for reply in replies {
        add_reply(text, reply)?;
        text.push_byte(b'\n')?;
    }
    Ok(())
}

fn is_zero(words: &[u64]) -> bool
    ensures { result ≡ is_blank words.now }
{
    words.iter().all(|word| *word == 0)
}

#[tactic(auto, unfolding(crate::specs::Text::register_line))]
fn add_register(text: &mut TextWriter, number: usize, words: &Rec) -> Result<(), AllocError>
    ensures { OnOk result (text.new ≡ text.old ++ register_line (number, words.now)) }
{
    if is_zero(words) {
        return Ok(());
    }
    text.push_bytes(b"register ")?;
    text.push_number(number as u64)?;
    text.push_byte(b' ')?;
    add_tuple(text, words)?;
    text.push_byte(b'\n')
}

fn add_registers(text: &mut TextWriter, registers: &[Rec]) -> Result<(), AllocError>
    ensures { OnOk result (text.new ≡ text.old ++ flat_map register_line (enumerate_from 0 registers.now)) }
{
    for (number, words) in registers.iter().enumerate() {
        add_register(text, number, words)?;
    }
    Ok(())
}

#[tactic(auto, unfolding(crate::specs::Text::pair_line))]
fn add_pair(text: &mut TextWriter, key: &KeyWords, val: &ValWords) -> Result<(), AllocError>
    ensures { OnOk result (text.new ≡ text.old ++ pair_line (key.now, val.now)) }
{
    text.push_bytes(b"record ")?;
    add_tuple(text, &[key.k0, key.k1])?;
    text.push_byte(b' ')?;
    add_tuple(text, val)?;
    text.push_byte(b'\n')
}

fn add_pairs(text: &mut TextWriter, pairs: &[(KeyWords, ValWords)]) -> Result<(), AllocError>
    ensures { OnOk result (text.new ≡ text.old ++ flat_map pair_line pairs.now) }
{
    for (key, val) in pairs {
        add_pair(text, key, val)?;
    }
    Ok(())
}

#[tactic(auto, unfolding(crate::specs::Text::nodes_line))]
fn add_nodes(text: &mut TextWriter, counts: &Counts) -> Result<(), AllocError>
    requires { counts.now.free + counts.now.live < 2 ^ 32 }
    ensures { OnOk result (text.new ≡ text.old ++ nodes_line counts.now) }
{
    text.push_bytes(b"nodes ")?;
    text.push_number(u64::from(counts.free + counts.live))?;
    text.push_bytes(b" free ")?;
    text.push_number(u64::from(counts.free))?;
    text.push_bytes(b" live ")?;
    text.push_number(u64::from(counts.live))?;
    text.push_byte(b'\n')
}

/// What comes of a script, as text: a line for each reply, each register that isn't all zeros and
/// each pair, and one for the nodes.
pub fn write_replies(alloc: Global, driven: &Driven) -> Result<Vec<u8>, NoMemory>
    requires rising { HasRisingKeys driven.now.pairs }
    requires retired { driven.now.counts.retired ≡ 0 }
    requires nodes { driven.now.counts.free + driven.now.counts.live < 2 ^ 32 }
    ensures { IfOk result (λ text. text.items ≡ driven_text driven.now) }
{
    let mut text = TextWriter::new(alloc);
    add_replies(&mut text, driven.replies.as_slice())?;
    add_registers(&mut text, driven.registers.as_slice())?;
    add_pairs(&mut text, driven.pairs.as_slice())?;
    add_nodes(&mut text, &driven.counts)?;
    Ok(text.into_bytes())
}
