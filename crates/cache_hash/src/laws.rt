// What a table's user need not prove again: that no call is Full, that a try which came late stands
// later, and what keys come to that are added to. A law is a function with nothing to do.
ghost use Rattle.std.specs.Prelude.{All, Bool, List, None, Option, Some, ℕ};
ghost use Rattle.big_atomic.specs.Calls.{Answered};
ghost use Rattle.big_atomic.specs.Ready.{IsReady};
ghost use Rattle.big_atomic.specs.Registers.{end_of};
ghost use Rattle.big_atomic.specs.Seats.{IsUnused};
ghost use Rattle.big_atomic.specs.Sums.{Adding, Shows};
ghost use Rattle.cache_hash.specs.Calls.{IsFound, IsInserted, IsKeyChange, IsReplaced, IsUpdated};
ghost use Rattle.cache_hash.specs.Keys.{HasFewKeys, NotFull, OnlyPuts};
ghost use Rattle.cache_hash.specs.Places.{CameLateToInsert, CameLateToReplace, KnowsKey};
ghost use Rattle.cache_hash.specs.Room.{CallFits, Fits, HasNodesLeft, HasRoom, IsNeverShort, IsNotFull};
ghost use Rattle.cache_hash.specs.Sums.{AddToKey, CountsKeys, CountsMore, IsCount, IsSum, PutsMore, PutsOneMore, amount_added, times_counted};
ghost use Rattle.cache_hash.specs.declared.answers.Insert.{Insert as InsertAnswer};
ghost use Rattle.cache_hash.specs.declared.answers.Replace.{Replace as ReplaceAnswer};
ghost use Rattle.cache_hash.specs.declared.answers.Update.{Update as UpdateAnswer};
ghost use Rattle.seat_history.specs.declared.call.Call.{Call};
ghost use Rattle.seat_history.specs.declared.key.KeyWords.{KeyWords};
ghost use Rattle.seat_history.specs.declared.reply.Reply.{Reply};
ghost use Rattle.step_rules.specs.Closing.{ClosedData, IsClosed};
ghost use Rattle.step_rules.specs.SeatData.{IsOf, IsSeat, ObjectData, SeatData};

use seat_history::ValWords;

/// Where a share has room for all changes, no insert, replace or remove of a seat is Full, as long as each
/// change has cost the seat no more than a node.
pub fn no_call_is_full()
    ensures { (shared : ObjectData) (call : Call) (reply : Reply) (changed : Bool) (before after : SeatData) → HasRoom shared.plan
        → IsReady shared before → HasNodesLeft shared before → IsKeyChange call reply changed before after → IsNotFull reply }
{}

/// Where pairs are only put in, no call is Full that is of an object whose share has two nodes for each
/// key that is there at closing, one for each claim word, and one more.
pub fn few_keys_none_full()
    ensures { (most : ℕ) (seat : SeatData) (closed : ClosedData) → IsSeat seat → IsClosed seat closed
        → All (λ s. OnlyPuts s.call) closed.stands → HasFewKeys most closed → All NotFull closed.stands }
{}

/// A seat that made no call has its whole share.
pub fn unused_has_nodes()
    ensures { (shared : ObjectData) (seat : SeatData) → IsUnused shared seat → HasNodesLeft shared seat }
{}

/// Each call costs no more nodes than the changes that it spends.
pub fn nodes_stay_left()
    ensures { (shared : ObjectData) (cell : ℕ) (asked : Call) (told : Reply) (before after : SeatData) → IsReady shared before → IsReady shared after
        → HasNodesLeft shared before → Answered cell asked told before after → HasNodesLeft shared after }
{}

/// After a find the seat knows the key's value at its last stand.
pub fn found_is_known()
    ensures { (key : KeyWords) (found : Option (List ℕ)) (before after : SeatData) → IsFound key found before after → KnowsKey key found after }
{}

/// An insert of a key that had no value at the last stand, which finds the key there, stands later.
pub fn late_insert_stands_later()
    ensures { (shared : ObjectData) (key : KeyWords) (val : List ℕ) (answer : InsertAnswer) (before after : SeatData) → IsOf shared before
        → KnowsKey key None before → IsInserted key val answer before after → CameLateToInsert shared key answer before after }
{}

/// A replace of the value that the key had at the last stand, which finds another one or none, stands
/// later.
pub fn late_replace_stands_later()
    ensures { (shared : ObjectData) (key : KeyWords) (old new : List ℕ) (answer : ReplaceAnswer) (before after : SeatData) → IsOf shared before
        → KnowsKey key (Some old) before → IsReplaced key old new answer before after → CameLateToReplace shared key answer before after }
{}

/// Where each call that changes a key adds to it, its value shows at closing the sum of all that was
/// added, in whatever order the calls came: by any way to add that is commutative.
pub fn key_sums()
    ensures { (A : Adding ℕ) (number : List ℕ → ℕ) (shown : ℕ → ℕ) (k : ℕ) (seat : SeatData) (closed : ClosedData) (sum : ℕ)
        → IsSeat seat → IsClosed seat closed → AddToKey A (Shows number shown) k closed.stands sum
        → IsSum A (Shows number shown) ((end_of closed).values k) sum }
{}

/// Where keys are only counted up, each key's value says at closing how often it was counted, modulo
/// 2^64, and a key that never was has none.
pub fn key_counts()
    ensures { (number : List ℕ → ℕ) (k : ℕ) (seat : SeatData) (closed : ClosedData) → IsSeat seat → IsClosed seat closed
        → All (λ s. CountsKeys number s.call) closed.stands → IsCount number ((end_of closed).values k) (times_counted k closed.stands) }
{}

/// Where a share has room for all changes, no call of a seat is Full that made no call yet.
pub fn unused_is_never_short()
    ensures { (shared : ObjectData) (seat : SeatData) → HasRoom shared.plan → IsUnused shared seat → IsNeverShort shared seat }
{}

/// An insert, a replace or a remove is never Full to such a seat, and leaves it such a one.
pub fn change_fits()
    ensures { (shared : ObjectData) (call : Call) (reply : Reply) (changed : Bool) (before after : SeatData) → IsNeverShort shared before → IsReady shared after
        → IsKeyChange call reply changed before after → CallFits shared reply before after }
{}

/// An update by any function is never Full to such a seat, and leaves it such a one.
pub fn update_fits<F: Fn(Option<ValWords>) -> ValWords>(f: &F)
    ensures { (shared : ObjectData) (key : KeyWords) (answer : UpdateAnswer) (before after : SeatData) → IsNeverShort shared before → IsReady shared after
        → IsUpdated key (λ there val. F.post f.now there val) answer before after → Fits shared answer before after }
{}

/// An update by a function that gives one more counts its key, where it is Done.
pub fn update_counts<F: Fn(Option<ValWords>) -> ValWords>(f: &F)
    ensures { (number : List ℕ → ℕ) (key : KeyWords) (answer : UpdateAnswer) (before after : SeatData)
        → ((there : Option (List ℕ)) (val : List ℕ) → F.post f.now there val → PutsOneMore number there val)
        → IsUpdated key (λ there val. F.post f.now there val) answer before after → CountsMore number key answer before after }
{}

/// An update by a function that gives an amount more, which may hang on what is there, adds that amount to
/// its key, where it is Done: by any way to add.
pub fn update_adds<F: Fn(Option<ValWords>) -> ValWords>(f: &F)
    ensures { (A : Adding ℕ) (number : List ℕ → ℕ) (shown : ℕ → ℕ) (amount : Option (List ℕ) → ℕ) (k : ℕ) (key : KeyWords) (answer : UpdateAnswer)
        (before after : SeatData) (sum : ℕ)
        → ((there : Option (List ℕ)) (val : List ℕ) → F.post f.now there val → PutsMore A (Shows number shown) amount there val)
        → IsUpdated key (λ there val. F.post f.now there val) answer before after → AddToKey A (Shows number shown) k before.view.stands sum
        → AddToKey A (Shows number shown) k after.view.stands (A.add sum (amount_added A amount key answer k)) }
{}
