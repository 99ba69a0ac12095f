ghost use Rattle.std.specs.Prelude.{◌≡◌, ◌≢◌, ◌<◌, ◌+◌, ◌++◌, ◌∷◌, length, vec_capacity, vec_len};
ghost use Rattle.step_rules.specs.Kinds.Backup.{MayExchange};
ghost use Rattle.step_rules.specs.Layout.{cells};
ghost use Rattle.step_rules.specs.SeatData.{IsOf, IsSeat};
ghost use Rattle.step_rules.specs.Records.{removes_of};
ghost use Rattle.step_rules.specs.Steps.{DropsNoted, HoldsFront, Sees, Won};
ghost use Rattle.step_rules.specs.declared.view.Kind.TheVariants.{BackupExchange, BackupLoad};

use crate::place::Telling;
use crate::plays::{Exchanges, Looks};
use crate::seat::Seat;
use crate::shared::Shared;
use seat_history::Call;
use std::marker::Brand;

/// Looks at the backup of a cell.
pub fn backup_load(shared: &Shared, seat: &mut Seat, cell: u32) -> u64
    requires ours { IsOf shared.now seat.old }
    requires there { cell < cells shared.now.plan }
    ensures seat { Sees (BackupLoad cell) cell result seat.old seat.new }
    ensures law { IsSeat seat.new }
{
    seat.fresh = false;
    let place = shared.backup_place(cell);
    shared.table.shared.load::<Looks>(&mut seat.inner, place)
}

fn exchange_told<T: Telling>(
    shared: &Shared,
    seat: &mut Seat,
    cell: u32,
    seen: u64,
    node: u32,
    call: Call,
) -> u64
    requires told { call ≡ T.call }
    requires ours { IsOf shared.now seat.old }
    requires may { MayExchange cell seen node call seat.old.view }
    requires front { HoldsFront node call seat.old }
    requires noted { DropsNoted call seat.old }
    ensures won { result ≡ seen → Won cell seen node call seat.old seat.new }
    ensures lost { result ≢ seen → Sees (BackupExchange cell seen node) cell result seat.old seat.new }
    ensures law { IsSeat seat.new }
{
    seat.fresh = false;
    let place = shared.backup_place(cell);
    let new = 2 * u64::from(node) + 1;
    let found = shared
        .table
        .shared
        .compare_exchange::<Exchanges<T>>(&mut seat.inner, place, seen, new);
    if found != seen {
        return found;
    }
    seat.changes -= 1;
    seat.removes -= removes_of(&call);
    seat.holding.clear();
    retire(&mut seat.retired, (seen / 2) as u32, &seat.noted);
    found
}

// Adds a cell's first node and then the noted links to the retired ones.
fn retire(retired: &mut Vec<u32>, first: u32, noted: &[u32])
    requires room { vec_len retired.old + length noted.now < vec_capacity retired.old }
    ensures items { retired.new.items ≡ retired.old.items ++ first ∷ noted.now }
    ensures capacity { vec_capacity retired.new ≡ vec_capacity retired.old }
{
    retired.push_reserved(first);
    for link in noted {
        retired.push_reserved(*link);
    }
}

// How many removes a call spends.
fn removes_of(call: &Call) -> u32
    ensures { result ≡ removes_of call.now }
{
    match call {
        Call::Remove { key: _ } => 1,
        _ => 0,
    }
}

/// Exchanges the backup of a cell from a word whose node the seat's Back claim stands on to a held and
/// announced node, with its mark set, for a call that changes the claimed records. The held nodes,
/// linked from that one on, are the front that the call makes, and of the claimed chain the first node
/// falls out and then the noted links. It won exactly where it answers that word; then the call is the
/// last of the history, the held nodes are the cell's, and the nodes that fell out are retired.
pub fn backup_exchange(
    shared: &Shared,
    seat: &mut Seat,
    cell: u32,
    seen: u64,
    node: u32,
    call: Call,
) -> u64
    requires ours { IsOf shared.now seat.old }
    requires may { MayExchange cell seen node call seat.old.view }
    requires front { HoldsFront node call seat.old }
    requires noted { DropsNoted call seat.old }
    ensures won { result ≡ seen → Won cell seen node call seat.old seat.new }
    ensures lost { result ≢ seen → Sees (BackupExchange cell seen node) cell result seat.old seat.new }
    ensures law { IsSeat seat.new }
{
    exchange_told::<Brand>(shared, seat, cell, seen, node, call)
}
