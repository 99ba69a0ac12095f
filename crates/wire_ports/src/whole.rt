ghost use Rattle.std.specs.Prelude.{◌≡◌, ◌+◌, ◌<◌, ◌≤◌, Some, [], true, length, option_map, IfOk, IfSome, OnOk, IsErrOf};
ghost use Rattle.wire_ports.specs.declared.feed.FailedIn.TheVariants.{Read};
ghost use Rattle.wire_ports.specs.declared.whole.ReadEnd.TheVariants.{NoMemory};
ghost use Rattle.wire_ports.specs.Bytes.{IsLonger};
ghost use Rattle.wire_ports.specs.Ports.{HasRisen};

use crate::feed::Feed;
use std::alloc::{AllocError, Global};

/// Why a file wasn't read to its end.
#[derive(Clone, Copy, Debug, PartialEq, Eq)]
pub enum ReadEnd {
    /// A read failed.
    Failed,
    /// More bytes were read than were asked for, and no end came.
    TooLarge,
    NoMemory,
}

impl From<AllocError> for ReadEnd {
    ghost from_gives = { λ _ e. e ≡ NoMemory };

    fn from(_: AllocError) -> Self {
        ReadEnd::NoMemory
    }
}

/// How many bytes a read is asked for at most.
const PIECE: usize = 1 << 18;

/// All bytes of the started file, where they are at most `most`. After a refusal the feed must be
/// started again. No read asks for more than one byte past `most`.
pub fn read_whole<F: Feed>(alloc: Global, feed: &mut F, most: usize) -> Result<Vec<u8>, ReadEnd>
    requires { F.started feed.old ≡ true }
    ensures whole { IfOk result (λ v. IfSome (F.left feed.old) (λ bytes. v.items ≡ bytes)) }
    ensures end { OnOk result (F.left feed.new ≡ option_map (λ _. []) (F.left feed.old)) }
    ensures started { OnOk result (F.started feed.new ≡ true) }
    ensures most { IfOk result (λ v. length v.items ≤ most) }
    ensures too_large { IsErrOf result ReadEnd.TooLarge → IsLonger most (F.left feed.old) }

    // Too large is said exactly where more than `most` bytes were read before the end: one more.
    ensures past { IsErrOf result ReadEnd.TooLarge →
        F.given feed.new ≡ F.given feed.old + most + 1 }
    ensures given { IfOk result (λ v. F.given feed.new ≡ F.given feed.old + length v.items) }
    ensures short { IsErrOf result ReadEnd.Failed → F.given feed.new ≤ F.given feed.old + most }

    ensures risen { IsErrOf result ReadEnd.Failed →
        HasRisen (F.faults feed.old) (F.faults feed.new) }
    ensures cause { IsErrOf result ReadEnd.Failed →
        F.failed feed.new ≡ Some (F.current feed.old, Read) }
    ensures quiet { ¬ IsErrOf result ReadEnd.Failed → F.failed feed.new ≡ F.failed feed.old }
    ensures steady { ¬ IsErrOf result ReadEnd.Failed → F.faults feed.new ≡ F.faults feed.old }
    ensures later { F.faults feed.old ≤ F.faults feed.new }
    ensures files { F.files feed.new ≡ F.files feed.old }
    ensures current { F.current feed.new ≡ F.current feed.old }
{
    let mut all = Vec::new(alloc);
    let mut filled = 0;
    'pieces: loop {
        let room = most - filled;
        let ask = room.min(PIECE - 1) + 1;
        all.resize(filled + ask, 0)?;
        let n = match feed.read(&mut all[filled..]) {
            Ok(n) => n,
            Err(_) => return Err(ReadEnd::Failed),
        };
        if n == 0 {
            all.truncate(filled);
            return Ok(all);
        }
        if n > room {
            return Err(ReadEnd::TooLarge);
        }
        filled += n;
    }
}
