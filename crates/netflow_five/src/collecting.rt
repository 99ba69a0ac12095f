ghost use Rattle.std.specs.Prelude.{◌≡◌, ◌+◌, ◌<◌, ◌≤◌, ◌^◌, List, ℕ, length, IfOk, IfErr, OnErr};
ghost use Rattle.netflow_five.specs.File.{IsFile, IsRefusal, IsWellFormed};
ghost use Rattle.netflow_five.specs.Next.{ReadTo, StopsAt, CameTo, CollectsSome, StaysAt};

use crate::collector::Collector;
use crate::datagram::decode;
use crate::malformed::Malformed;
use crate::refused::Refused;
use wire_ports::NoMemory;

/// Where the datagrams end that bytes begin with, and why no further one begins there. There is no
/// cause where the bytes end too.
#[derive(Clone, Copy, Debug, PartialEq, Eq)]
pub(crate) struct Front {
    pub(crate) at: usize,
    pub(crate) cause: Option<Malformed>,
}

/// Collects the datagrams that the bytes begin with, one after the other. Where memory runs out, it
/// has collected some first ones.
pub(crate) fn collect_front<C: Collector>(
    bytes: &[u8],
    collector: &mut C,
) -> Result<Front, NoMemory>
    requires span { C.span collector.old + length bytes.now < 2 ^ 64 }
    ensures front { IfOk result (λ front. (ds : List (List ℕ)) × ReadTo bytes.now front.at ds
        × CameTo C.holds collector.old ds collector.new) }
    ensures stops { IfOk result (λ front. StopsAt bytes.now front.at front.cause) }
    ensures some { OnErr result (CollectsSome C.holds bytes.now collector.old collector.new) }
    ensures span { IfOk result (λ front. C.span collector.new ≤ C.span collector.old + front.at) }
    ensures within { OnErr result (C.span collector.new ≤ C.span collector.old + length bytes.now) }
{
    let mut at = 0;
    'datagrams: while at < bytes.len() {
        match decode(bytes, at) {
            Ok(datagram) => {
                collector.add(&datagram)?;
                at += datagram.size();
            }
            Err(cause) => {
                return Ok(Front {
                    at,
                    cause: Some(cause),
                });
            }
        }
    }
    Ok(Front { at, cause: None })
}

/// Collects the datagrams of a whole file that stands in memory, one after the other, or tells where
/// and why it is none. Then it has collected the datagrams before that place; where memory runs out,
/// some first ones.
pub fn collect_bytes<C: Collector>(bytes: &[u8], collector: &mut C) -> Result<(), Refused>
    requires span { C.span collector.old + length bytes.now < 2 ^ 64 }
    ensures ok { IfOk result (λ _. (ds : List (List ℕ)) × IsFile bytes.now ds × CameTo C.holds collector.old ds collector.new) }
    ensures err { IfErr result (IsRefusal bytes.now) }
    ensures only_memory { IsWellFormed bytes.now → IfErr result (λ refused. refused ≡ Refused.NoMemory) }
    ensures stays { IfErr result (StaysAt C.holds bytes.now collector.old collector.new) }
    ensures span { C.span collector.new ≤ C.span collector.old + length bytes.now }
{
    let front = collect_front(bytes, collector)?;
    match front.cause {
        None => Ok(()),
        Some(cause) => Err(Refused::Malformed {
            offset: front.at,
            cause,
        }),
    }
}
