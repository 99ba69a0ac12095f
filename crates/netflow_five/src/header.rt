ghost use Rattle.std.specs.Prelude.{◌≡◌, ◌≤◌, length};
ghost use Rattle.netflow_five.specs.Header.{header_of};

use crate::field::{u8_at, u16_at, u32_at};

/// The header of a datagram, without its version, which is 5, and its count of records.
#[derive(Clone, Copy, Debug, PartialEq, Eq)]
pub struct Header {
    /// Milliseconds since the exporter started.
    pub sys_uptime: u32,
    /// Seconds since 1970.
    pub unix_secs: u32,
    /// Nanoseconds beyond those seconds.
    pub unix_nsecs: u32,
    /// How many flows the exporter has seen before this datagram.
    pub flow_sequence: u32,
    pub engine_type: u8,
    pub engine_id: u8,
    /// The sampling mode and interval, as they are stored.
    pub sampling: u16,
}

pub(crate) fn header_at(datagram: &[u8]) -> Header
    requires { 24 ≤ length datagram.now }
    ensures { result ≡ header_of datagram.now }
{
    Header {
        sys_uptime: u32_at(datagram, 4),
        unix_secs: u32_at(datagram, 8),
        unix_nsecs: u32_at(datagram, 12),
        flow_sequence: u32_at(datagram, 16),
        engine_type: u8_at(datagram, 20),
        engine_id: u8_at(datagram, 21),
        sampling: u16_at(datagram, 22),
    }
}
