// The words of a call line.
ghost use Rattle.std.specs.Prelude.{◌≡◌, ◌≤◌, ◌<◌, ◌∷◌, [], ◌↔◌, IsTrue, IfSome, IfNone, codes, length, option_map};
ghost use Rattle.call_script.specs.Cut.{parts_in, words_of};
ghost use Rattle.call_script.specs.Form.{words_behind, words_in};
ghost use Rattle.call_script.specs.Line.{AreFull, AreCallWords, AreFirstWords};
ghost use Rattle.call_script.specs.Spelling.{HasCallWords};

use crate::cut::cut;

/// The words behind a call's name.
#[derive(Clone, Copy)]
pub(crate) enum Behind<'a> {
    Nothing,
    One(&'a [u8]),
    Two(&'a [u8], &'a [u8]),
    Three(&'a [u8], &'a [u8], &'a [u8]),
}

/// A call as its words.
#[derive(Clone, Copy)]
pub(crate) enum Form<'a> {
    Load(&'a [u8]),
    Store(&'a [u8], &'a [u8]),
    Swap(&'a [u8], &'a [u8], &'a [u8]),
    Hold(&'a [u8]),
    Look,
    Release,
    Find(&'a [u8]),
    Insert(&'a [u8], &'a [u8]),
    Replace(&'a [u8], &'a [u8], &'a [u8]),
    Remove(&'a [u8]),
}

/// The first word and what stands behind it, where that word isn't empty.
pub(crate) fn word(bytes: &[u8]) -> Option<(&[u8], Option<&[u8]>)>
    ensures found { IfSome result (λ cut. words_of bytes.now ≡ cut.0.now ∷ parts_in 32 (option_map (λ rest. rest.now) cut.1)) }
    ensures full { IfSome result (λ cut. 0 < length cut.0.now) }
    ensures none { IfNone result (AreFull (words_of bytes.now) → ⊥) }
{
    let (word, rest) = cut(bytes, b' ');
    if word.is_empty() {
        None
    } else {
        Some((word, rest))
    }
}

fn is_name(word: &[u8], name: &str) -> bool
    ensures { IsTrue result ↔ (word.now ≡ name.now) }
{
    word == name.as_bytes()
}

#[tactic(auto, using(crate::proofs::Parts::parts_some))]
// The words, where they are at most three and none is empty.
fn words_after(bytes: Option<&[u8]>) -> Option<Behind<'_>>
    ensures found { IfSome result (λ behind. parts_in 32 (option_map (λ rest. rest.now) bytes.entry) ≡ words_behind behind) }
    ensures full { IfSome result (λ behind. AreFull (words_behind behind)) }
    ensures none { IfNone result (AreFull (parts_in 32 (option_map (λ rest. rest.now) bytes.entry))
        → length (parts_in 32 (option_map (λ rest. rest.now) bytes.entry)) ≤ 3 → ⊥) }
{
    let Some(bytes) = bytes else {
        return Some(Behind::Nothing);
    };
    let (first, bytes) = word(bytes)?;
    let Some(bytes) = bytes else {
        return Some(Behind::One(first));
    };
    let (second, bytes) = word(bytes)?;
    let Some(bytes) = bytes else {
        return Some(Behind::Two(first, second));
    };
    let (third, bytes) = word(bytes)?;
    match bytes {
        Some(_) => None,
        None => Some(Behind::Three(first, second, third)),
    }
}

fn form_of_none<'a>(name: &[u8]) -> Option<Form<'a>>
    ensures found { IfSome result (λ form. words_in form ≡ name.now ∷ []) }
    ensures none { IfNone result (HasCallWords (name.now ∷ []) → ⊥) }
{
    if is_name(name, "look") {
        Some(Form::Look)
    } else if is_name(name, "drop") {
        Some(Form::Release)
    } else {
        None
    }
}

fn form_of_one<'a>(name: &[u8], word: &'a [u8]) -> Option<Form<'a>>
    ensures found { IfSome result (λ form. words_in form ≡ name.now ∷ word.entry.now ∷ []) }
    ensures none { IfNone result (HasCallWords (name.now ∷ word.entry.now ∷ []) → ⊥) }
{
    if is_name(name, "load") {
        Some(Form::Load(word))
    } else if is_name(name, "hold") {
        Some(Form::Hold(word))
    } else if is_name(name, "find") {
        Some(Form::Find(word))
    } else if is_name(name, "remove") {
        Some(Form::Remove(word))
    } else {
        None
    }
}

fn form_of_two<'a>(name: &[u8], first: &'a [u8], second: &'a [u8]) -> Option<Form<'a>>
    ensures found { IfSome result (λ form. words_in form ≡ name.now ∷ first.entry.now ∷ second.entry.now ∷ []) }
    ensures none { IfNone result (HasCallWords (name.now ∷ first.entry.now ∷ second.entry.now ∷ []) → ⊥) }
{
    if is_name(name, "store") {
        Some(Form::Store(first, second))
    } else if is_name(name, "insert") {
        Some(Form::Insert(first, second))
    } else {
        None
    }
}

fn form_of_three<'a>(
    name: &[u8],
    first: &'a [u8],
    second: &'a [u8],
    third: &'a [u8],
) -> Option<Form<'a>>
    ensures found { IfSome result (λ form. words_in form ≡ name.now ∷ first.entry.now ∷ second.entry.now ∷ third.entry.now ∷ []) }
    ensures none { IfNone result (HasCallWords (name.now ∷ first.entry.now ∷ second.entry.now ∷ third.entry.now ∷ []) → ⊥) }
{
    if is_name(name, "swap") {
        Some(Form::Swap(first, second, third))
    } else if is_name(name, "replace") {
        Some(Form::Replace(first, second, third))
    } else {
        None
    }
}

// The call of this name with these words.
fn form_of<'a>(name: &[u8], behind: Behind<'a>) -> Option<Form<'a>>
    ensures found { IfSome result (λ form. words_in form ≡ name.now ∷ words_behind behind.entry) }
    ensures none { IfNone result (HasCallWords (name.now ∷ words_behind behind.entry) → ⊥) }
{
    match behind {
        Behind::Nothing => form_of_none(name),
        Behind::One(word) => form_of_one(name, word),
        Behind::Two(first, second) => form_of_two(name, first, second),
        Behind::Three(first, second, third) => form_of_three(name, first, second, third),
    }
}

/// A call line as its caller's word and its call's words.
#[derive(Clone, Copy)]
pub(crate) struct LineWords<'a> {
    pub(crate) caller: &'a [u8],
    pub(crate) form: Form<'a>,
}

/// The words of a call line, where it has those of a call.
pub(crate) fn line_words(line: &[u8]) -> Option<LineWords<'_>>
    ensures found { IfSome result (λ words. words_of line.now ≡ words.caller.now ∷ words_in words.form) }
    ensures call { IfSome result (λ _. AreCallWords (words_of line.now)) }
    ensures none { IfNone result (AreCallWords (words_of line.now) → ⊥) }
{
    let (caller, rest) = word(line)?;
    let (name, rest) = word(rest?)?;
    let behind = words_after(rest)?;
    let form = form_of(name, behind)?;
    Some(LineWords { caller, form })
}

/// The word behind `callers`, where a line is these two.
#[tactic(auto, using(crate::proofs::Parts::parts_some))]
pub(crate) fn callers_word(line: &[u8]) -> Option<&[u8]>
    ensures found { IfSome result (λ number. words_of line.now ≡ codes "callers" ∷ number.now ∷ []) }
    ensures full { IfSome result (λ number. 0 < length number.now) }
    ensures none { IfNone result (AreFirstWords (words_of line.now) → ⊥) }
{
    let (name, rest) = word(line)?;
    if !is_name(name, "callers") {
        return None;
    }
    let (number, rest) = word(rest?)?;
    match rest {
        Some(_) => None,
        None => Some(number),
    }
}
