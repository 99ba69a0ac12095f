// What the definitions come to. A law is a function with nothing to do.
ghost use Rattle.std.specs.Prelude.{◌≡◌, ◌≤◌, ℕ, List};
ghost use Rattle.seat_history.specs.Object.{blank_object};
ghost use Rattle.seat_history.specs.declared.call.Call.{Call};
ghost use Rattle.seat_history.specs.declared.entry.Entry.{Entry};
ghost use Rattle.step_rules.specs.Closing.{ClosedData, IsClosed};
ghost use Rattle.step_rules.specs.Flights.{FlightsAgree, LaterFound, ReadsAgree, VersionsAgree};
ghost use Rattle.step_rules.specs.History.{IsHistory};
ghost use Rattle.step_rules.specs.Line.{CanBeCalledAlong, line_of};
ghost use Rattle.step_rules.specs.Order.{AreRecordsOf, NeedsByOrder};
ghost use Rattle.step_rules.specs.Recent.{LooksAreRecent};
ghost use Rattle.step_rules.specs.Records.{records_at};
ghost use Rattle.step_rules.specs.SeatData.{IsSeat, SeatData};
ghost use Rattle.step_rules.specs.Starts.{StartIsPinned, UntouchedAgree};
ghost use Rattle.step_rules.specs.declared.plan.Plan.{Plan};

/// A bucket's records after a history are its pairs, the one whose last insert stands latest first.
pub fn records_are_in_order()
    ensures { (p : Plan) (log : List Entry) (k : ℕ) → IsHistory p log → p.registers ≤ k → AreRecordsOf p log k (records_at p log k) }
{}

/// No other records are.
pub fn records_are_one()
    ensures { (p : Plan) (log : List Entry) (k : ℕ) (rs : List (List ℕ)) → IsHistory p log → p.registers ≤ k → AreRecordsOf p log k rs → rs ≡ records_at p log k }
{}

/// What a change needs after a history is told by its key's place among the records of its cell.
pub fn need_is_by_order()
    ensures { (p : Plan) (log : List Entry) (call : Call) → NeedsByOrder p log call }
{}

/// Along the line of a closed object, the object of one thread can be called at each stand, and gives
/// each reply that isn't Full.
pub fn closed_line_can_be_called()
    ensures { (seat : SeatData) (closed : ClosedData) → IsSeat seat → IsClosed seat closed
        → CanBeCalledAlong closed.plan.registers blank_object (line_of closed.plan.seats closed.history closed.stands) }
{}

/// Between any two steps, a cell with an even version and no mark has the words of its node inline. One
/// with an odd version is marked, and just one seat has locked it.
pub fn versions_agree()
    ensures { VersionsAgree }
{}

/// A table whose one seat is the first meets the rule with the words of the start alone: `build` hands it
/// no others.
pub fn start_is_pinned()
    ensures { StartIsPinned }
{}

/// A cell that the history has no entry on has the words of the start: its version is 0, its backup names
/// the node with its own number, unmarked, and the words there and inline are zeros, but that a bucket's
/// next word is `END`.
pub fn untouched_agree()
    ensures { UntouchedAgree }
{}

/// After a step that found a cell's backup word, the seat has seen all that any seat had seen at that
/// moment. The node found has the words of the cell's first record then, and a word that no change put
/// there is the cell's first one.
pub fn looks_are_recent()
    ensures { LooksAreRecent }
{}

/// No version that a seat found is above the cell's. A change in flight is the last one of its cell while
/// the backup names its node, and finds the cell marked as long as a version is there that was found
/// before its exchange; what it locked has as many of its words as it stored; and what it released is its
/// own, while the cell has its node.
pub fn flights_agree()
    ensures { FlightsAgree }
{}

/// Of two changes in flight in one cell, one before which the version was found that the other released
/// is the later.
pub fn later_found()
    ensures { LaterFound }
{}

/// What a seat has read of inline words is what stands there while the version does, and after an
/// unmarked backup it is the first node of the cell then.
pub fn reads_agree()
    ensures { ReadsAgree }
{}
