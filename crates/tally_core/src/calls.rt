//! Any one call of a caller's.
ghost use Rattle.tally_core.specs.Calls.{CanMake, HasMade};

use crate::replies::{found, inserted, removed, replaced, stored, swapped};
use big_atomic::{Seat, Shared, compare_and_swap, hold, load, look, release_hold, store};
use cache_hash::{find, insert, remove, replace};
use seat_history::{Call, Reply};

/// Makes a call, and answers its reply.
pub(crate) fn make_call(shared: &Shared, seat: &mut Seat, call: Call) -> Reply
    requires can { CanMake shared.now call seat.old }
    ensures made { HasMade shared.now call result seat.old seat.new }
{
    match call {
        Call::Load { reg } => Reply::Words(load(shared, seat, reg)),
        Call::Store { reg, new } => stored(store(shared, seat, reg, new)),
        Call::Swap { reg, old, new } => swapped(compare_and_swap(shared, seat, reg, old, new)),
        Call::Hold { reg } => {
            hold(shared, seat, reg);
            Reply::Done
        }
        Call::Look => Reply::Words(look(shared, seat)),
        Call::Release => {
            release_hold(shared, seat);
            Reply::Done
        }
        Call::Find { key } => found(find(shared, seat, key)),
        Call::Insert { key, val } => inserted(insert(shared, seat, key, val)),
        Call::Replace { key, old, new } => replaced(replace(shared, seat, key, old, new)),
        Call::Remove { key } => removed(remove(shared, seat, key)),
    }
}
