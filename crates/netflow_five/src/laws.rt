// What the definitions of lost flows come to. A law is a function with nothing to do.
ghost use Rattle.std.specs.Prelude.{◌≡◌, ◌≢◌, ◌+◌, ◌++◌, ◌%◌, ◌^◌, ◌<◌, List, [], if◌then◌else◌, ℕ};
ghost use Rattle.netflow_five.specs.Engines.{Engine, sent_by};
ghost use Rattle.netflow_five.specs.Gaps.{IsUnbroken, gap_between, is_loss, next_sequence};
ghost use Rattle.netflow_five.specs.Joining.{IsJoined, Meet};
ghost use Rattle.netflow_five.specs.Losses.{IsLosses, Tells};
ghost use Rattle.netflow_five.specs.declared.engine_line.EngineLine.{EngineLine};
ghost use Rattle.netflow_five.specs.declared.seq_mark.SeqMark.{SeqMark};

/// Datagrams have one list of lines.
pub fn losses_are_one_list()
    ensures some { (marks : List SeqMark) → (lines : List EngineLine) × IsLosses marks lines }
    ensures one { (marks : List SeqMark) (lines others : List EngineLine) → IsLosses marks lines → IsLosses marks others → lines ≡ others }
{}

/// A gap leads from the number that comes next after a datagram to the number of the one that came.
pub fn gaps_lead_on()
    ensures { (first second : SeqMark) → second.sequence < 2 ^ 32
        → (next_sequence first + gap_between first second) % 2 ^ 32 ≡ second.sequence }
{}

/// Of an engine whose datagrams each have the number that comes next nothing was lost, and it never
/// began anew.
pub fn unbroken_numbers_lose_nothing()
    ensures { (sent : List SeqMark) (line : EngineLine) → IsUnbroken sent → Tells sent line → (line.lost ≡ 0) × (line.resets ≡ 0) }
{}

/// One gap is as many lost flows where it is below 2^31, and else a reset.
pub fn a_gap_counts_alone()
    ensures { (sent later : List SeqMark) (gap : ℕ) (line : EngineLine) → IsUnbroken sent → IsUnbroken later → Meet sent later gap
        → Tells (sent ++ later) line → (line.lost ≡ (if is_loss gap then gap else 0)) × (line.resets ≡ (if is_loss gap then 0 else 1)) }
{}

/// Where datagrams follow others, as those of the next file do, the line of an engine that sent some
/// of each is the sum of both lines, and the gap where they meet counts too.
pub fn lines_add_up()
    ensures meet { (engine : Engine) (marks others : List SeqMark) → sent_by engine marks ≢ [] → sent_by engine others ≢ []
        → (gap : ℕ) × Meet (sent_by engine marks) (sent_by engine others) gap }
    ensures joined { (engine : Engine) (marks others : List SeqMark) (line other both : EngineLine) (gap : ℕ)
        → Tells (sent_by engine marks) line → Tells (sent_by engine others) other → Tells (sent_by engine (marks ++ others)) both
        → Meet (sent_by engine marks) (sent_by engine others) gap → IsJoined line other gap both }
{}

/// Datagrams of other engines leave a line as it is, whether they follow or come before.
pub fn other_engines_leave_a_line()
    ensures { (engine : Engine) (marks others : List SeqMark) (line : EngineLine) → sent_by engine others ≡ []
        → Tells (sent_by engine marks) line
        → Tells (sent_by engine (marks ++ others)) line × Tells (sent_by engine (others ++ marks)) line }
{}
