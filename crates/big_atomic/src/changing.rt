//! What calls that change a register have in common.
ghost use Rattle.std.specs.Prelude.{◌≡◌, ◌<◌, length};
ghost use Rattle.big_atomic.specs.Calling.{HasReady, HasRoom, HoldsFilled};
ghost use Rattle.big_atomic.specs.Installing.{Exchanged, HasNear};
ghost use Rattle.step_rules.specs.Claims.{OWN};
ghost use Rattle.step_rules.specs.Kinds.Backup.{MayExchange};
ghost use Rattle.step_rules.specs.SeatData.{IsOf, IsSeat};
ghost use Rattle.step_rules.specs.Steps.{DropsNoted, HoldsFront};
ghost use Rattle.step_rules.specs.Views.{claim_of};

use crate::answers::Install;
use crate::claiming::words_of;
use hazard_claims::scan;
use node_pool::{fill, take};
use seat_history::{Call, Rec};
use step_rules::{Seat, Shared, backup_exchange};

/// Scans where no node is free, and answers whether one is.
fn make_room(shared: &Shared, seat: &mut Seat) -> bool
    requires ours { IsOf shared.now seat.old }
    requires law { IsSeat seat.old }
    ensures room { HasRoom result seat.old seat.new }
    ensures law { IsSeat seat.new }
{
    if seat.free() > 0 {
        return true;
    }
    scan(shared, seat);
    seat.free() > 0
}

/// A held node that has the record: the one kept, or else a free one that is taken and filled. None
/// comes where none is kept, and none is free after a scan.
pub(crate) fn ready_node(
    shared: &Shared,
    seat: &mut Seat,
    kept: Option<u32>,
    rec: Rec,
) -> Option<u32>
    requires ours { IsOf shared.now seat.old }
    requires own { (claim_of OWN seat.old.view).word ≡ 0 }
    requires law { IsSeat seat.old }
    ensures ready { HasReady kept result rec seat.old seat.new }
    ensures law { IsSeat seat.new }
{
    if kept.is_some() {
        return kept;
    }
    if !make_room(shared, seat) {
        return None;
    }
    Some(fill_node(shared, seat, rec))
}

/// Takes a free node and fills it with the record.
fn fill_node(shared: &Shared, seat: &mut Seat, rec: Rec) -> u32
    requires ours { IsOf shared.now seat.old }
    requires free { 0 < length seat.old.free }
    requires own { (claim_of OWN seat.old.view).word ≡ 0 }
    requires law { IsSeat seat.old }
    ensures filled { HoldsFilled result rec seat.old seat.new }
    ensures law { IsSeat seat.new }
{
    let node = take(shared, seat);
    fill(shared, seat, node, words_of(rec));
    node
}

/// Exchanges the backup of a cell from a word to the held node. Where only the mark of the word was
/// cleared meanwhile, it tries once more, from the word found.
pub(crate) fn exchange(
    shared: &Shared,
    seat: &mut Seat,
    cell: u32,
    word: u64,
    node: u32,
    call: Call,
) -> Install
    requires ours { IsOf shared.now seat.old }
    requires may { MayExchange cell word node call seat.old.view }
    requires front { HoldsFront node call seat.old }
    requires noted { DropsNoted call seat.old }
    requires found { HasNear cell word seat.old.view }
    requires law { IsSeat seat.old }
    ensures exchanged { Exchanged cell word node call result seat.old seat.new }
    ensures law { IsSeat seat.new }
{
    let found = backup_exchange(shared, seat, cell, word, node, call);
    if found == word {
        return Install::Installed;
    }
    if found / 2 != word / 2 {
        return Install::Moved(found);
    }
    let again = backup_exchange(shared, seat, cell, found, node, call);
    if again == found {
        Install::Installed
    } else {
        Install::Moved(again)
    }
}
