//! What one visitor does: a visit of each page.
ghost use Rattle.std.specs.Prelude.{◌≡◌, ◌<◌, ◌≤◌, ◌++◌, ◌∷◌, [], List, length};
ghost use Rattle.cache_hash.specs.Prelude.{HasRoom, IsNeverShort, IsUnused, KeyWords as Page, PutsOneMore, Stays};
ghost use Rattle.visit_counter.specs.Visits.{HasVisited, visits};

use cache_hash::{KeyWords, Seat, Shared, Update, VALUE_WIDTH, ValWords, update};

// One visit more than there are, and the first one where there are none.
fn one_more(there: Option<ValWords>) -> ValWords
    ensures { PutsOneMore visits there result }
{
    let mut val = [0; VALUE_WIDTH];
    val[0] = match there {
        None => 1,
        Some(old) => old[0].wrapping_add(1),
    };
    val
}

// Counts a visit of the page.
fn visit(shared: &Shared, seat: &mut Seat, page: KeyWords)
    requires some { 0 < shared.now.plan.buckets }
    requires fits { IsNeverShort shared.now seat.old }
    requires left { 0 < seat.old.view.changes }
    ensures visited { (pages : List Page) → HasVisited shared.now pages seat.old → HasVisited shared.now (pages ++ page ∷ []) seat.new }
    ensures stays { Stays seat.old seat.new }
{
    match update(shared, seat, page, one_more) {
        Update::Done { .. } => {}
        Update::Full { .. } => unreachable!(),
    }
}

/// Counts a visit of each of these pages.
pub(crate) fn visit_all(shared: &Shared, seat: Seat, pages: &[KeyWords]) -> Seat
    requires unused { IsUnused shared.now seat }
    requires some { 0 < shared.now.plan.buckets }
    requires room { HasRoom shared.now.plan }
    requires left { length pages.now ≤ shared.now.plan.changes }
    ensures visited { HasVisited shared.now pages.now result }
    ensures stays { Stays seat result }
{
    let mut visitor = seat;
    for page in pages {
        visit(shared, &mut visitor, *page);
    }
    visitor
}
