ghost use Rattle.std.specs.Prelude.{◌≡◌, ◌+◌, ◌*◌, ◌<◌, ◌≤◌, ◌^◌, length};
ghost use Rattle.flow_report.specs.Sums.{packets_of, octets_of};

use flow_fold::{Key, Value};

/// What the last line says of the flow lines: how many there are, and their packets and octets
/// together.
#[derive(Clone, Copy)]
pub(crate) struct Sums {
    pub(crate) flows: usize,
    pub(crate) packets: u128,
    pub(crate) octets: u128,
    ghost packets_small: { packets ≤ flows * 2 ^ 64 },
    ghost octets_small: { octets ≤ flows * 2 ^ 64 },
}

impl Sums {
    /// Those of no flows.
    pub(crate) fn none() -> Sums
        ensures flows { result.flows ≡ 0 }
        ensures packets { result.packets ≡ 0 }
        ensures octets { result.octets ≡ 0 }
    {
        Sums {
            flows: 0,
            packets: 0,
            octets: 0,
        }
    }

    /// Those with one more flow.
    pub(crate) fn with(self, value: Value) -> Sums
        requires { self.flows < 2 ^ 63 }
        ensures flows { result.flows ≡ self.flows + 1 }
        ensures packets { result.packets ≡ self.packets + value.packets }
        ensures octets { result.octets ≡ self.octets + value.octets }
    {
        Sums {
            flows: self.flows + 1,
            packets: self.packets + u128::from(value.packets),
            octets: self.octets + u128::from(value.octets),
        }
    }
}

/// Those of all these flows.
pub(crate) fn sums_of(flows: &[(Key, Value)]) -> Sums
    ensures flows { result.flows ≡ length flows.now }
    ensures packets { result.packets ≡ packets_of flows.now }
    ensures octets { result.octets ≡ octets_of flows.now }
{
    let mut sums = Sums::none();
    for flow in flows {
        sums = sums.with(flow.1);
    }
    sums
}
