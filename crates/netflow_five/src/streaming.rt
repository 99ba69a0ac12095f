ghost use Rattle.std.specs.Prelude.{◌≡◌, ◌+◌, ◌-◌, ◌<◌, ◌≤◌, ◌^◌, List, ℕ, Ok, Err, Some, [], true, length, IfOk, IfSome, OnErr, MatchOption};
ghost use Rattle.netflow_five.specs.Next.{CollectsFront, CollectsSome, StopsAt, IsShort};
ghost use Rattle.netflow_five.specs.Streaming.{CollectsFile};
ghost use Rattle.wire_ports.specs.FeedMoments.{feed_at};

use crate::collecting::collect_front;
use crate::collector::Collector;
use crate::file_end::FileEnd;
use crate::malformed::Malformed;
use wire_ports::{Feed, NoMemory, Window, pass_rest};

/// Collects the datagrams that the window begins with and lets go of them. Tells why no further
/// one begins, if any bytes are left. Where memory runs out, it has collected some first ones.
fn collect_window<C: Collector>(
    window: &mut Window,
    collector: &mut C,
) -> Result<Option<Malformed>, NoMemory>
    requires span { C.span collector.old + length window.old < 2 ^ 64 }
    ensures collected { IfOk result (λ _. (ds : List (List ℕ))
        × CollectsFront C.holds window.old collector.old ds window.new collector.new) }
    ensures stops { IfOk result (λ cause. StopsAt window.new 0 cause) }
    ensures some { OnErr result (CollectsSome C.holds window.old collector.old collector.new) }
    ensures span { IfOk result (λ _. C.span collector.new + length window.new ≤ C.span collector.old + length window.old) }
    ensures within { OnErr result (C.span collector.new ≤ C.span collector.old + length window.old) }
{
    let front = collect_front(window.as_slice(), collector)?;
    window.skip(front.at);
    Ok(front.cause)
}

/// The fault that no further bytes mend, if it is one.
fn lasting(cause: Option<Malformed>) -> Option<Malformed>
    ensures { MatchOption result (IfSome cause IsShort) (λ fault. (cause ≡ Some fault) × (IsShort fault → ⊥)) }
{
    match cause {
        Some(Malformed::Version { .. } | Malformed::Count { .. }) => cause,
        _ => None,
    }
}

/// What a file of so many bytes comes to, of which the last are left since no further datagram
/// begins there.
fn ended(read: usize, left: usize, cause: Option<Malformed>) -> Result<usize, FileEnd>
    requires { left ≤ read }
    ensures { MatchOption cause (result ≡ Ok read) (λ fault. result ≡ Err (FileEnd.Malformed (read - left) fault)) }
{
    match cause {
        None => Ok(read),
        Some(cause) => Err(FileEnd::Malformed {
            offset: read - left,
            cause,
        }),
    }
}

/// Collects the datagrams of the started file while it is read through the window.
fn collect_pieces<F: Feed, C: Collector>(
    feed: &mut F,
    window: &mut Window,
    collector: &mut C,
    most: usize,
) -> Result<usize, FileEnd>
    requires started { F.started feed.old ≡ true }
    requires empty { window.old ≡ [] }
    requires span { C.span collector.old + most < 2 ^ 64 }
    ensures most { IfOk result (λ n. n ≤ most) }
    ensures file { let at = feed_at F.files F.left F.given F.current F.started F.faults F.failed in
        CollectsFile C.holds most (at feed.old) collector.old (at feed.new) collector.new result }
    ensures span { IfOk result (λ n. C.span collector.new ≤ C.span collector.old + n) }
    ensures within { C.span collector.new ≤ C.span collector.old + most }
{
    let mut read = 0;
    let mut cause = None;
    'reads: loop {
        match window.fill(feed, most - read) {
            Ok(0) => return ended(read, window.as_slice().len(), cause),
            Ok(n) => read += n,
            Err(end) => return Err(FileEnd::from(end)),
        }
        match collect_window(window, collector) {
            Ok(stop) => cause = stop,
            Err(_) => return Err(FileEnd::NoMemory),
        }
        if let Some(cause) = lasting(cause) {
            let offset = read - window.as_slice().len();
            return match pass_rest(feed, window, most - read) {
                Ok(_) => Err(FileEnd::Malformed { offset, cause }),
                Err(end) => Err(FileEnd::from(end)),
            };
        }
    }
}

/// Collects the datagrams of the started file, of which there may be at most `most` bytes, while it
/// is read, and tells how many bytes it has. It goes through the window, and lets go of its bytes.
/// Where no datagram follows, the rest is read as well, so that a read that fails and too many bytes
/// are told first. At each refusal it has collected some first datagrams of what was read: at a bad
/// one those before it.
pub fn collect_file<F: Feed, C: Collector>(
    feed: &mut F,
    window: &mut Window,
    collector: &mut C,
    most: usize,
) -> Result<usize, FileEnd>
    requires started { F.started feed.old ≡ true }
    requires span { C.span collector.old + most < 2 ^ 64 }
    ensures most { IfOk result (λ n. n ≤ most) }
    ensures file { let at = feed_at F.files F.left F.given F.current F.started F.faults F.failed in
        CollectsFile C.holds most (at feed.old) collector.old (at feed.new) collector.new result }
    ensures let_go { window.new ≡ [] }
    ensures span { IfOk result (λ n. C.span collector.new ≤ C.span collector.old + n) }
    ensures within { C.span collector.new ≤ C.span collector.old + most }
{
    window.clear();
    let collected = collect_pieces(feed, window, collector, most);
    window.clear();
    collected
}
