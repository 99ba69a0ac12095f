// When a seat is ready, what a missed swap has seen, and what a closed object has in it. A law is a
// function with nothing to do.
ghost use Rattle.std.specs.Prelude.{◌≡◌, All, Bool, List, ℕ, count_by, false, true};
ghost use Rattle.big_atomic.specs.Calls.{IsLoaded, IsSwapped};
ghost use Rattle.big_atomic.specs.Ready.{IsReady};
ghost use Rattle.big_atomic.specs.Registers.{CountsUp, FitsBlank, GivesFitting, HasCounted, HasFitting, end_of};
ghost use Rattle.big_atomic.specs.Stands.{HasSeenMore};
ghost use Rattle.big_atomic.specs.Sums.{AddUpTo, Adding, AddsToRegister, Shows};
ghost use Rattle.big_atomic.specs.declared.answers.Swap.TheVariants.{No as SwapNo};
ghost use Rattle.seat_history.specs.Contents.{zeros};
ghost use Rattle.step_rules.specs.Closing.{ClosedData, IsClosed};
ghost use Rattle.step_rules.specs.Line.{line_of};
ghost use Rattle.step_rules.specs.SeatData.{IsOf, IsSeat, ObjectData, SeatData, holds_record, is_quiet};
ghost use Rattle.step_rules.specs.declared.view.Stand.{Stand};

/// A seat that made no step but splits is ready: the one that `build` made, and both parts of a split.
pub fn fresh_is_ready()
    ensures { (shared : ObjectData) (seat : SeatData) → IsOf shared seat → IsSeat seat → seat.fresh ≡ true → IsReady shared seat }
{}

/// A quiet seat is ready: a first seat after a join is.
pub fn quiet_is_ready()
    ensures { (shared : ObjectData) (seat : SeatData) → IsOf shared seat → IsSeat seat → is_quiet seat ≡ true → IsReady shared seat }
{}

/// A ready seat that holds no record is quiet: it may be joined.
pub fn ready_is_quiet()
    ensures { (shared : ObjectData) (seat : SeatData) → IsReady shared seat → holds_record seat.view ≡ false → is_quiet seat ≡ true }
{}

/// A closed object's line counts as its stands do, under every test.
pub fn line_counts()
    ensures { (test : Stand → Bool) (seat : SeatData) (closed : ClosedData) → IsSeat seat → IsClosed seat closed
        → count_by test (line_of closed.plan.seats closed.history closed.stands) ≡ count_by test closed.stands }
{}

/// A swap that is answered No after a load of its old record has seen more of the history, so that a
/// caller that tries again ends.
pub fn missed_has_seen_more()
    ensures { (shared : ObjectData) (reg : ℕ) (old new : List ℕ) (before loaded after : SeatData) → IsOf shared before
        → IsLoaded reg old before loaded → IsSwapped reg old new SwapNo loaded after → HasSeenMore shared before after }
{}

/// Where each call gives its register a record that fits, no other was read, and none is left.
pub fn records_fit()
    ensures { (fits : ℕ → List ℕ → Bool) (may_hold : List ℕ → Bool) → FitsBlank fits → (seat : SeatData) (closed : ClosedData)
        → IsSeat seat → IsClosed seat closed → All (λ s. GivesFitting fits may_hold s.call) closed.stands → HasFitting fits may_hold closed }
{}

/// Where a register is only counted up by swaps, its number is how many of them were answered Yes.
pub fn register_counts()
    ensures { (reg : ℕ) (number : List ℕ → ℕ) (seat : SeatData) (closed : ClosedData) → IsSeat seat → IsClosed seat closed
        → All (λ s. CountsUp reg number s.call) closed.stands → HasCounted reg number closed }
{}

/// Where a register is only changed by swaps that add to it, its number shows at the end what a new one's
/// shows, and the sum of all that was added, in whatever order: by any way to add that is commutative.
pub fn register_sums()
    ensures { (A : Adding ℕ) (number : List ℕ → ℕ) (shown : ℕ → ℕ) (reg : ℕ) (seat : SeatData) (closed : ClosedData) (start sum : ℕ)
        → IsSeat seat → IsClosed seat closed → number zeros ≡ shown start
        → AddUpTo A (λ x s. AddsToRegister A (Shows number shown) reg x s.call s.reply) closed.stands sum
        → number ((end_of closed).registers reg) ≡ shown (A.add start sum) }
{}
