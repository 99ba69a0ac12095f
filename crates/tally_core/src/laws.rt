// What the definitions come to. A law is a function with nothing to do.
ghost use Rattle.std.specs.Prelude.{◌≤◌, ◌^◌, List, ℕ};
ghost use Rattle.call_script.specs.Line.{MayHaveCallers};
ghost use Rattle.call_script.specs.Run.{plan_of};
ghost use Rattle.seat_history.specs.declared.entry.Entry.{Entry};
ghost use Rattle.step_rules.specs.Layout.{nodes};

/// Within the limits of a script no plan is too large for an object.
pub fn script_plan_fits()
    ensures { (callers buckets share : ℕ) (lines : List Entry) → MayHaveCallers callers → buckets ≤ 65536 → share ≤ 65536
        → nodes (plan_of callers lines buckets share) ≤ 2 ^ 24 }
{}
