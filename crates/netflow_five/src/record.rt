ghost use Rattle.std.specs.Prelude.{◌≡◌, length};
ghost use Rattle.netflow_five.specs.Record.{record_of};

use crate::field::{u8_at, u16_at, u32_at};

/// A flow record of a datagram, as Cisco's format has it.
#[derive(Clone, Copy, Debug, PartialEq, Eq)]
pub struct FlowRecord {
    pub srcaddr: u32,
    pub dstaddr: u32,
    pub nexthop: u32,
    /// SNMP index of the interface that the flow came in by.
    pub input: u16,
    /// SNMP index of the interface that the flow went out by.
    pub output: u16,
    pub d_pkts: u32,
    pub d_octets: u32,
    /// The exporter's uptime in milliseconds at the flow's first packet.
    pub first: u32,
    /// The exporter's uptime in milliseconds at the flow's last packet.
    pub last: u32,
    pub srcport: u16,
    pub dstport: u16,
    pub pad1: u8,
    /// The cumulative OR of the TCP flags.
    pub tcp_flags: u8,
    /// The IP protocol.
    pub prot: u8,
    /// The IP type of service.
    pub tos: u8,
    pub src_as: u16,
    pub dst_as: u16,
    pub src_mask: u8,
    pub dst_mask: u8,
    pub pad2: u16,
}

pub(crate) fn record_at(part: &[u8]) -> FlowRecord
    requires { length part.now ≡ 48 }
    ensures { result ≡ record_of part.now }
{
    FlowRecord {
        srcaddr: u32_at(part, 0),
        dstaddr: u32_at(part, 4),
        nexthop: u32_at(part, 8),
        input: u16_at(part, 12),
        output: u16_at(part, 14),
        d_pkts: u32_at(part, 16),
        d_octets: u32_at(part, 20),
        first: u32_at(part, 24),
        last: u32_at(part, 28),
        srcport: u16_at(part, 32),
        dstport: u16_at(part, 34),
        pad1: u8_at(part, 36),
        tcp_flags: u8_at(part, 37),
        prot: u8_at(part, 38),
        tos: u8_at(part, 39),
        src_as: u16_at(part, 40),
        dst_as: u16_at(part, 42),
        src_mask: u8_at(part, 44),
        dst_mask: u8_at(part, 45),
        pad2: u16_at(part, 46),
    }
}
