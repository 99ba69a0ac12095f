// What the definitions come to. A law is a function with nothing to do.
ghost use Rattle.std.specs.Prelude.{◌≡◌, ◌<◌, Bool, List, [], is_some, length, ℕ};
ghost use Rattle.std.specs.List.{AllZip};
ghost use Rattle.call_script.specs.Holding.{MayTurn, calls_by};
ghost use Rattle.call_script.specs.Line.{SpellsEntry};
ghost use Rattle.call_script.specs.PlainRun.{IsPlainRun, RunsPlainIn};
ghost use Rattle.call_script.specs.Row.{EndsAs, HasCalled, row_of};
ghost use Rattle.call_script.specs.Run.{IsOrderOf, IsRun, Made, RunsIn, made_in, made_lines, own_lines, plan_of};
ghost use Rattle.call_script.specs.Script.{Good, MayRun, ReadAs};
ghost use Rattle.call_script.specs.declared.driven.Driven.{Driven};
ghost use Rattle.call_script.specs.declared.driven.PlainRun.{PlainRun};
ghost use Rattle.seat_history.specs.Object.{Object, blank_object};
ghost use Rattle.seat_history.specs.declared.entry.Entry.{Entry};
ghost use Rattle.seat_history.specs.declared.reply.Reply.{Reply};
ghost use Rattle.step_rules.specs.Closing.{ClosedData, IsClosed};
ghost use Rattle.step_rules.specs.SeatData.{SeatData};
ghost use Rattle.step_rules.specs.declared.plan.Plan.{Plan};
ghost use Rattle.step_rules.specs.declared.view.Stand.{Stand};

/// Called in one order on the object of one thread, lines come to one thing.
pub fn order_has_one_plain_run()
    ensures { (order : List ℕ) (lines : List Entry) (run other : PlainRun) → IsOrderOf lines order
        → RunsPlainIn order lines run → RunsPlainIn order lines other → run ≡ other }
{}

/// Lines that spell calls come to something on it.
pub fn lines_have_a_plain_run()
    ensures { (lines : List (List ℕ)) (entries : List Entry) → AllZip SpellsEntry lines entries → (run : PlainRun) × IsPlainRun entries run }
{}

/// Each script has a run, with as many nodes as there may be, on an object with a bucket.
pub fn scripts_have_a_run()
    ensures { (lines : List (List ℕ)) (callers : ℕ) (entries : List Entry) (buckets share : ℕ) → 0 < buckets → ReadAs lines (Good callers entries)
        → (driven : Driven) × IsRun (plan_of callers entries buckets share) entries driven }
{}

/// Each caller's own lines may be made in turn, whatever the others do.
pub fn callers_take_turns()
    ensures { (callers : ℕ) (object : Object) (lines : List Entry) → MayRun callers object lines
        → (x : ℕ) → MayTurn (is_some (object.held x)) (calls_by x lines) }
{}

/// A row of all lines with their replies that has each caller's in the script's order is an order
/// of the lines.
pub fn rows_are_orders()
    ensures { (lines : List Entry) (replies : List Reply) (row : List Made) → length replies ≡ length lines
        → ((x : ℕ) → own_lines x row ≡ own_lines x (made_lines lines replies))
        → (order : List ℕ) × IsOrderOf lines order × (made_in lines replies order ≡ row) }
{}

/// Lines that callers made on an object that is closed are a run of theirs, in the order of its
/// line.
pub fn closed_lines_run()
    ensures { (seat : SeatData) (closed : ClosedData) (leaves : ℕ → Bool) (own : ℕ → List Stand) (lines : List Entry) (driven : Driven)
        → IsClosed seat closed → HasCalled closed leaves own lines driven.replies
        → MayRun closed.plan.seats blank_object lines → EndsAs closed driven → closed.retired ≡ []
        → (order : List ℕ) × IsOrderOf lines order × (made_in lines driven.replies order ≡ row_of leaves closed) × RunsIn closed.plan order lines driven }
{}

/// What comes of lines in one order on the shared object is told by their replies.
pub fn replies_tell_the_rest()
    ensures { (plan : Plan) (order : List ℕ) (lines : List Entry) (driven other : Driven) → RunsIn plan order lines driven
        → RunsIn plan order lines other → driven.replies ≡ other.replies → driven ≡ other }
{}
