ghost use Rattle.std.specs.Prelude.{◌≡◌};
ghost use Rattle.flow_fold.specs.Pair.{record_key};

use netflow_five::FlowRecord;

/// Which flow a record belongs to. Keys are ordered by `k0`, and then by `k1`.
///
/// The seven fields have 128 bits together, so no two of them share a key: `k0` has the source
/// address above the destination address; `k1` has from its top source port (16 bits), destination
/// port (16), protocol (8), type of service (8) and input interface (16).
#[derive(Clone, Copy, Debug, PartialEq, Eq, PartialOrd, Ord)]
pub struct Key {
    pub k0: u64,
    pub k1: u64,
}

/// The key of a record.
pub fn key_of(flow: &FlowRecord) -> Key
    ensures { result ≡ record_key flow.now }
{
    Key {
        k0: (u64::from(flow.srcaddr) << 32) + u64::from(flow.dstaddr),
        k1: (u64::from(flow.srcport) << 48)
            + (u64::from(flow.dstport) << 32)
            + (u64::from(flow.prot) << 24)
            + (u64::from(flow.tos) << 16)
            + u64::from(flow.input),
    }
}
