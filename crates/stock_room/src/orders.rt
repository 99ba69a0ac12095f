//! What is done to one item: it is put in with its stock, and orders reserve of it.
ghost use Rattle.std.specs.Prelude.{◌≡◌, ◌+◌, ◌<◌, ◌≤◌, ◌++◌, ◌∷◌, [], IfSome, List, length, true};
ghost use Rattle.big_atomic.specs.Seats.{IsUnused, Stays};
ghost use Rattle.cache_hash.specs.Room.{HasRoom, IsNeverShort};
ghost use Rattle.stock_room.specs.Stock.{HasStocked, Reserves};
ghost use Rattle.stock_room.specs.declared.orders.Lot.{Lot as Listed};

use cache_hash::{Insert, KeyWords, Seat, Shared, Update, VALUE_WIDTH, ValWords, insert, update};

/// So many of an item: its stock, or an order.
#[derive(Clone, Copy)]
pub(crate) struct Lot {
    pub(crate) item: KeyWords,
    pub(crate) amount: u64,
}

// Puts an item in with its stock; false where it is there.
fn put_in(shared: &Shared, seat: &mut Seat, lot: Lot) -> bool
    requires some { 0 < shared.now.plan.buckets }
    requires fits { IsNeverShort shared.now seat.old }
    requires left { 0 < seat.old.view.changes }
    ensures stocked { result ≡ true → (lots : List Listed) → HasStocked shared.now lots seat.old → HasStocked shared.now (lots ++ lot ∷ []) seat.new }
    ensures spends { seat.old.view.changes ≤ seat.new.view.changes + 1 }
    ensures stays { Stays seat.old seat.new }
{
    let mut val = [0; VALUE_WIDTH];
    val[0] = lot.amount;
    match insert(shared, seat, lot.item, val) {
        Insert::Done => true,
        Insert::Present(_) => false,
        Insert::Full { .. } => unreachable!(),
    }
}

// Moves so much of an item from stock to reserved, where it is left.
fn reserve(shared: &Shared, seat: &mut Seat, order: Lot)
    requires some { 0 < shared.now.plan.buckets }
    requires fits { IsNeverShort shared.now seat.old }
    requires left { 0 < seat.old.view.changes }
    ensures stocked { HasStocked shared.now [] seat.old → HasStocked shared.now [] seat.new }
    ensures spends { seat.old.view.changes ≤ seat.new.view.changes + 1 }
    ensures stays { Stays seat.old seat.new }
{
    let amount = order.amount;
    let change = |there: Option<ValWords>| -> ValWords
        ensures { Reserves amount there result }
    {
        let mut val = there.unwrap_or([0; VALUE_WIDTH]);
        if val[0] >= amount {
            val[0] -= amount;
            val[1] = val[1].wrapping_add(amount);
        }
        val
    };
    match update(shared, seat, order.item, change) {
        Update::Done { .. } => {}
        Update::Full { .. } => unreachable!(),
    }
}

/// Puts all of these items in; None where one is there already.
pub(crate) fn put_all(shared: &Shared, seat: Seat, items: &[Lot]) -> Option<Seat>
    requires unused { IsUnused shared.now seat }
    requires some { 0 < shared.now.plan.buckets }
    requires room { HasRoom shared.now.plan }
    requires left { length items.now ≤ shared.now.plan.changes }
    ensures stocked { IfSome result (λ keeper. HasStocked shared.now items.now keeper) }
    ensures stays { IfSome result (λ keeper. Stays seat keeper) }
{
    let mut keeper = seat;
    for lot in items {
        if !put_in(shared, &mut keeper, *lot) {
            return None;
        }
    }
    Some(keeper)
}

/// Works through these orders.
pub(crate) fn reserve_all(shared: &Shared, seat: Seat, orders: &[Lot]) -> Seat
    requires unused { IsUnused shared.now seat }
    requires some { 0 < shared.now.plan.buckets }
    requires room { HasRoom shared.now.plan }
    requires left { length orders.now ≤ shared.now.plan.changes }
    ensures stocked { HasStocked shared.now [] result }
    ensures stays { Stays seat result }
{
    let mut worker = seat;
    for order in orders {
        reserve(shared, &mut worker, *order);
    }
    worker
}
