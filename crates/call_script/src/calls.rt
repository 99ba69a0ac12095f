// The call that words spell.
ghost use Rattle.std.specs.Prelude.{◌≡◌, ◌≤◌, ◌<◌, [], ◌∷◌, ℕ, List, codes, IfSome, IfNone};
ghost use Rattle.call_script.specs.Form.{ReadsCall, words_in};
ghost use Rattle.call_script.specs.Number.{IsNumber, IsTuple};
ghost use Rattle.call_script.specs.Spelling.{IsKey};
ghost use Rattle.std.specs.Option.{SomeIff};
ghost use Rattle.seat_history.specs.declared.key.KeyWords.{KeyWords};

use crate::bad_script::LineCause;
use crate::form::Form;
use crate::number::{number_of, tuple_of};
use crate::script::REGISTERS;
use seat_history::{Call, KeyWords};

fn key_of(word: &[u8]) -> Option<KeyWords>
    ensures found { IfSome result (λ key. IsKey word.now key) }
    ensures none { IfNone result ((key : KeyWords) → IsKey word.now key → ⊥) }
{
    let Some(words) = tuple_of::<2>(word) else {
        return None;
    };
    Some(KeyWords {
        k0: words[0],
        k1: words[1],
    })
}

// The number of a register that is there.
fn register_of(number: u64) -> Option<u32>
    ensures { SomeIff result (number < 16) number }
{
    if number < u64::from(REGISTERS) {
        Some(number as u32)
    } else {
        None
    }
}

fn load(reg: &[u8]) -> Result<Call, LineCause>
    ensures { ReadsCall (codes "load" ∷ reg.now ∷ []) result }
{
    let Some(number) = number_of(reg) else {
        return Err(LineCause::Number);
    };
    match register_of(number) {
        Some(reg) => Ok(Call::Load { reg }),
        None => Err(LineCause::Range),
    }
}

fn store(reg: &[u8], new: &[u8]) -> Result<Call, LineCause>
    ensures { ReadsCall (codes "store" ∷ reg.now ∷ new.now ∷ []) result }
{
    let Some(number) = number_of(reg) else {
        return Err(LineCause::Number);
    };
    let Some(new) = tuple_of(new) else {
        return Err(LineCause::Number);
    };
    match register_of(number) {
        Some(reg) => Ok(Call::Store { reg, new }),
        None => Err(LineCause::Range),
    }
}

fn swap(reg: &[u8], old: &[u8], new: &[u8]) -> Result<Call, LineCause>
    ensures { ReadsCall (codes "swap" ∷ reg.now ∷ old.now ∷ new.now ∷ []) result }
{
    let Some(number) = number_of(reg) else {
        return Err(LineCause::Number);
    };
    let Some(old) = tuple_of(old) else {
        return Err(LineCause::Number);
    };
    let Some(new) = tuple_of(new) else {
        return Err(LineCause::Number);
    };
    match register_of(number) {
        Some(reg) => Ok(Call::Swap { reg, old, new }),
        None => Err(LineCause::Range),
    }
}

fn hold(reg: &[u8]) -> Result<Call, LineCause>
    ensures { ReadsCall (codes "hold" ∷ reg.now ∷ []) result }
{
    let Some(number) = number_of(reg) else {
        return Err(LineCause::Number);
    };
    match register_of(number) {
        Some(reg) => Ok(Call::Hold { reg }),
        None => Err(LineCause::Range),
    }
}

fn find(key: &[u8]) -> Result<Call, LineCause>
    ensures { ReadsCall (codes "find" ∷ key.now ∷ []) result }
{
    let Some(key) = key_of(key) else {
        return Err(LineCause::Number);
    };
    Ok(Call::Find { key })
}

fn insert(key: &[u8], val: &[u8]) -> Result<Call, LineCause>
    ensures { ReadsCall (codes "insert" ∷ key.now ∷ val.now ∷ []) result }
{
    let Some(key) = key_of(key) else {
        return Err(LineCause::Number);
    };
    let Some(val) = tuple_of(val) else {
        return Err(LineCause::Number);
    };
    Ok(Call::Insert { key, val })
}

fn replace(key: &[u8], old: &[u8], new: &[u8]) -> Result<Call, LineCause>
    ensures { ReadsCall (codes "replace" ∷ key.now ∷ old.now ∷ new.now ∷ []) result }
{
    let Some(key) = key_of(key) else {
        return Err(LineCause::Number);
    };
    let Some(old) = tuple_of(old) else {
        return Err(LineCause::Number);
    };
    let Some(new) = tuple_of(new) else {
        return Err(LineCause::Number);
    };
    Ok(Call::Replace { key, old, new })
}

fn remove(key: &[u8]) -> Result<Call, LineCause>
    ensures { ReadsCall (codes "remove" ∷ key.now ∷ []) result }
{
    let Some(key) = key_of(key) else {
        return Err(LineCause::Number);
    };
    Ok(Call::Remove { key })
}

/// The call of these words.
pub(crate) fn call_of(form: Form) -> Result<Call, LineCause>
    ensures { ReadsCall (words_in form.entry) result }
{
    match form {
        Form::Load(reg) => load(reg),
        Form::Store(reg, new) => store(reg, new),
        Form::Swap(reg, old, new) => swap(reg, old, new),
        Form::Hold(reg) => hold(reg),
        Form::Look => Ok(Call::Look),
        Form::Release => Ok(Call::Release),
        Form::Find(key) => find(key),
        Form::Insert(key, val) => insert(key, val),
        Form::Replace(key, old, new) => replace(key, old, new),
        Form::Remove(key) => remove(key),
    }
}
