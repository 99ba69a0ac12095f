// Which callers hold a record.
ghost use Rattle.std.specs.Prelude.{◌≡◌, ◌<◌, ◌↔◌, IsTrue, length};
ghost use Rattle.call_script.specs.Holding.{TellsHolders};
ghost use Rattle.seat_history.specs.Object.{MayCall, Object, object_after};

use seat_history::{Call, Entry};

/// Whether the caller may make its call, as far as held records go.
pub(crate) fn may_call(holding: &[bool], entry: &Entry) -> bool
    requires { entry.now.caller < length holding.now }
    ensures { (object : Object) → TellsHolders holding.now object
        → (IsTrue result ↔ MayCall (object.held entry.now.caller) entry.now.call) }
{
    match entry.call {
        Call::Hold { .. } => !holding[entry.caller as usize],
        Call::Look | Call::Release => holding[entry.caller as usize],
        _ => true,
    }
}

/// Notes what the caller holds after its call.
pub(crate) fn note_call(holding: &mut [bool], entry: &Entry)
    requires { entry.now.caller < length holding.old }
    ensures { (object : Object) → TellsHolders holding.old object → TellsHolders holding.new (object_after object entry.now) }
{
    match entry.call {
        Call::Hold { .. } => holding[entry.caller as usize] = true,
        Call::Release => holding[entry.caller as usize] = false,
        _ => {}
    }
}
