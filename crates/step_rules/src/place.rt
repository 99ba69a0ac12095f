//! What reaches a step beside its numbers, for the proof alone.
ghost use Rattle.std.specs.Prelude.{ℕ};
ghost use Rattle.seat_history.specs.declared.call.Call.{Call};
ghost use Rattle.seat_history.specs.declared.call.Call.TheVariants.{Look};
ghost use Rattle.seat_history.specs.declared.reply.Reply.{Reply};
ghost use Rattle.seat_history.specs.declared.reply.Reply.TheVariants.{Done};

use std::marker::Brand;

/// A place of the history, which a caller chooses and contracts alone see.
pub trait Place {
    ghost place: { ℕ };
}

impl Place for Brand {
    ghost place = { 0 };
}

/// The claim and the word of a recheck.
pub(crate) trait Rechecking {
    ghost claim: { ℕ };

    ghost seen: { ℕ };
}

impl Rechecking for Brand {
    ghost claim = { 0 };

    ghost seen = { 0 };
}

/// A call and its reply.
pub(crate) trait Telling {
    ghost call: { Call };

    ghost reply: { Reply };
}

impl Telling for Brand {
    ghost call = { Look };

    ghost reply = { Done };
}
