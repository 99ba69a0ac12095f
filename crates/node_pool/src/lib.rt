//! A seat's own nodes: taking a free one, filling it, reading it, and putting it back.
#![tactic(auto)]

ghost use Rattle.std.specs.Prelude.{◌≡◌, ◌<◌, true, length};
ghost use Rattle.node_pool.specs.Pool.{IsAllPutBack, IsFilled, IsPutBack, IsRead, IsTaken};
ghost use Rattle.step_rules.specs.SeatData.{IsOf, IsSeat, NoneAnnounced};
ghost use Rattle.step_rules.specs.Steps.{IsUnannounced, MayLoad};
ghost use Rattle.step_rules.specs.World.{has};

use step_rules::{NODE_WIDTH, Seat, Shared, node_load, node_store};

/// The words of a node: a record's, and the next word.
pub type NodeWords = [u64; NODE_WIDTH];

/// Takes a free node, which the seat holds then.
pub fn take(shared: &Shared, seat: &mut Seat) -> u32
    requires ours { IsOf shared.now seat.old }
    requires free { 0 < length seat.old.free }
    ensures taken { IsTaken result seat.old seat.new }
    ensures law { IsSeat seat.new }
{
    let node = seat.next_free();
    node_store(shared, seat, node, 0, 0);
    node
}

/// Stores all words of a held node.
pub fn fill(shared: &Shared, seat: &mut Seat, node: u32, words: NodeWords)
    requires ours { IsOf shared.now seat.old }
    requires held { has seat.old.holding node ≡ true }
    requires unannounced { IsUnannounced node seat.old.view }
    ensures filled { IsFilled node words seat.old seat.new }
    ensures law { IsSeat seat.new }
{
    for (j, word) in words.iter().enumerate() {
        node_store(shared, seat, node, j as u32, *word);
    }
}

/// Makes a held node free again.
pub fn put_back(_shared: &Shared, seat: &mut Seat, node: u32)
    requires ours { IsOf _shared.now seat.old }
    requires held { has seat.old.holding node ≡ true }
    requires unannounced { IsUnannounced node seat.old.view }
    ensures free { IsPutBack node seat.old seat.new }
    ensures law { IsSeat seat.new }
{
    seat.unhold(node);
}

/// Makes every held node free again.
pub fn put_back_all(shared: &Shared, seat: &mut Seat)
    requires ours { IsOf shared.now seat.old }
    requires unannounced { NoneAnnounced seat.old.holding seat.old.view }
    ensures free { IsAllPutBack seat.old seat.new }
    ensures law { IsSeat seat.new }
{
    'nodes: while seat.holding() > 0 {
        let node = seat.next_held();
        put_back(shared, seat, node);
    }
}

/// Reads all words of a node that the seat holds, or that a claim of it stands on.
pub fn node_words(shared: &Shared, seat: &mut Seat, node: u32) -> NodeWords
    requires ours { IsOf shared.now seat.old }
    requires known { MayLoad node seat.old }
    ensures read { IsRead node result seat.old seat.new }
    ensures law { IsSeat seat.new }
{
    let mut words = [0u64; NODE_WIDTH];
    for (j, word) in words.iter_mut().enumerate() {
        *word = node_load(shared, seat, node, j as u32);
    }
    words
}
