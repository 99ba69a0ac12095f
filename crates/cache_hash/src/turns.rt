//! What a turn of a change comes to.
use crate::asked::Told;

/// What a turn comes to.
#[derive(Clone, Copy, Drop)]
pub(crate) enum Turn {
    /// The call has ended.
    Ends(Told),
    /// The bucket was found to name another node than the claimed one. The call has scanned, or not.
    Moved { scanned: bool },
}
