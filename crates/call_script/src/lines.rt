// One line of a script.
ghost use Rattle.std.specs.Prelude.{◌≡◌, ◌≤◌, ◌<◌, IfOk, IfErr};
ghost use Rattle.call_script.specs.Line.{HasCause, HasFirstCause, IsInRange, MayHaveCallers, NamesCallers, SpellsEntry};
ghost use Rattle.seat_history.specs.Object.{Object};

use crate::bad_script::LineCause;
use crate::calls::call_of;
use crate::form::{callers_word, line_words};
use crate::number::number_of;
use seat_history::{CALLERS, Entry};

/// How many callers line 1 names.
pub(crate) fn read_callers(line: &[u8]) -> Result<u32, LineCause>
    ensures named { IfOk result (λ callers. NamesCallers line.now callers) }
    ensures range { IfOk result (λ callers. MayHaveCallers callers) }
    ensures err { IfErr result (λ cause. HasFirstCause line.now cause) }
{
    let Some(number) = callers_word(line) else {
        return Err(LineCause::Words);
    };
    let Some(callers) = number_of(number) else {
        return Err(LineCause::Number);
    };
    if callers == 0 || callers > CALLERS as u64 {
        return Err(LineCause::Range);
    }
    Ok(callers as u32)
}

/// The call of a line.
pub(crate) fn read_call(line: &[u8], callers: u32) -> Result<Entry, LineCause>
    ensures spelled { IfOk result (λ entry. SpellsEntry line.now entry) }
    ensures range { IfOk result (λ entry. IsInRange callers entry) }
    ensures err { IfErr result (λ cause. (object : Object) → HasCause callers object line.now cause) }
{
    let Some(words) = line_words(line) else {
        return Err(LineCause::Words);
    };
    let Some(caller) = number_of(words.caller) else {
        return Err(LineCause::Number);
    };
    let call = call_of(words.form)?;
    if caller >= u64::from(callers) {
        return Err(LineCause::Range);
    }
    Ok(Entry {
        caller: caller as u32,
        call,
    })
}
