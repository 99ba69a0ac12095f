//! What each kind of atomic step tells its caller.
ghost use Rattle.step_rules.specs.Plays.{announced, cleared, copied, exchanged, glanced, inline_loaded, loaded, loaded_again, locked};
ghost use Rattle.step_rules.specs.Plays.{looked, rechecked_any, released, scanned, settled, stood, stored, unmarked, version_loaded};
ghost use Rattle.step_rules.specs.Views.{joined_view, left_view, right_view, spent_view};

use crate::place::{Place, Rechecking, Telling};
use crate::view::View;
use atomic_table::{Join, Play, Split};
use seat_history::Call;
use std::marker::PhantomData;

pub(crate) struct Stores;

impl Play<Call, View> for Stores {
    ghost then = { stored };
}

pub(crate) struct Loads;

impl Play<Call, View> for Loads {
    ghost then = { loaded };
}

pub(crate) struct Glances;

impl Play<Call, View> for Glances {
    ghost then = { glanced };
}

pub(crate) struct Looks;

impl Play<Call, View> for Looks {
    ghost then = { looked };
}

pub(crate) struct Exchanges<T> {
    of: PhantomData<T>,
}

impl<T: Telling> Play<Call, View> for Exchanges<T> {
    ghost then = { exchanged T.call };
}

pub(crate) struct Announces;

impl Play<Call, View> for Announces {
    ghost then = { announced };
}

pub(crate) struct Rechecks<R> {
    of: PhantomData<R>,
}

impl<R: Rechecking> Play<Call, View> for Rechecks<R> {
    ghost then = { rechecked_any R.claim R.seen };
}

pub(crate) struct Clears;

impl Play<Call, View> for Clears {
    ghost then = { cleared };
}

pub(crate) struct Scans;

impl Play<Call, View> for Scans {
    ghost then = { scanned };
}

pub(crate) struct Stands<P, T> {
    of: PhantomData<(P, T)>,
}

impl<P: Place, T: Telling> Play<Call, View> for Stands<P, T> {
    ghost then = { stood P.place T.call T.reply };
}

pub(crate) struct VersionLoads;

impl Play<Call, View> for VersionLoads {
    ghost then = { version_loaded };
}

pub(crate) struct InlineLoads;

impl Play<Call, View> for InlineLoads {
    ghost then = { inline_loaded };
}

pub(crate) struct LoadsAgain;

impl Play<Call, View> for LoadsAgain {
    ghost then = { loaded_again };
}

pub(crate) struct Locks;

impl Play<Call, View> for Locks {
    ghost then = { locked };
}

pub(crate) struct Copies;

impl Play<Call, View> for Copies {
    ghost then = { copied };
}

pub(crate) struct Releases;

impl Play<Call, View> for Releases {
    ghost then = { released };
}

pub(crate) struct Unmarks;

impl Play<Call, View> for Unmarks {
    ghost then = { unmarked };
}

pub(crate) struct Settles;

impl Play<Call, View> for Settles {
    ghost then = { settled };
}

pub(crate) struct Halves;

impl Split<View> for Halves {
    ghost left = { left_view };

    ghost right = { right_view };
}

pub(crate) struct Joins;

impl Join<View> for Joins {
    ghost both = { joined_view };

    ghost spent = { spent_view };
}
