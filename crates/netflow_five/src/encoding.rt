ghost use Rattle.std.specs.Prelude.{◌≡◌, ◌<◌, ◌≤◌, ◌++◌, length, map, IfOk, OnOk};
ghost use Rattle.std.specs.List.{flat_map};
ghost use Rattle.netflow_five.specs.Datagram.{IsDatagram, records_of};
ghost use Rattle.netflow_five.specs.Encoding.{route_bytes, traffic_bytes, transport_bytes, network_bytes, record_bytes, clock_bytes, exporter_bytes, header_bytes};
ghost use Rattle.netflow_five.specs.Header.{header_of};
ghost use Rattle.netflow_five.specs.Ranges.{RouteFits, TrafficFits, PortsFit, NetworkFits, ClockFits, ExporterFits};
ghost use Rattle.netflow_five.specs.Record.{record_of};

use crate::datagram::{HEADER, RECORD, VERSION};
use crate::header::Header;
use crate::record::FlowRecord;
use std::alloc::{AllocError, Global};
use wire_ports::NoMemory;

// A record and a header are encoded in arrays of their own, so that adding one of them looks for room
// once and not at each field.

#[tactic(auto, unfolding(crate::specs::Encoding::route_bytes))]
fn encode_route(flow: FlowRecord) -> [u8; 16]
    ensures bytes { result ≡ route_bytes flow }
    ensures fits { RouteFits flow }
{
    let mut bytes = [0; 16];
    bytes[0..4].copy_from_slice(&flow.srcaddr.to_be_bytes());
    bytes[4..8].copy_from_slice(&flow.dstaddr.to_be_bytes());
    bytes[8..12].copy_from_slice(&flow.nexthop.to_be_bytes());
    bytes[12..14].copy_from_slice(&flow.input.to_be_bytes());
    bytes[14..16].copy_from_slice(&flow.output.to_be_bytes());
    bytes
}

#[tactic(auto, unfolding(crate::specs::Encoding::traffic_bytes))]
fn encode_traffic(flow: FlowRecord) -> [u8; 16]
    ensures bytes { result ≡ traffic_bytes flow }
    ensures fits { TrafficFits flow }
{
    let mut bytes = [0; 16];
    bytes[0..4].copy_from_slice(&flow.d_pkts.to_be_bytes());
    bytes[4..8].copy_from_slice(&flow.d_octets.to_be_bytes());
    bytes[8..12].copy_from_slice(&flow.first.to_be_bytes());
    bytes[12..16].copy_from_slice(&flow.last.to_be_bytes());
    bytes
}

#[tactic(auto, unfolding(crate::specs::Encoding::transport_bytes))]
fn encode_transport(flow: FlowRecord) -> [u8; 8]
    ensures bytes { result ≡ transport_bytes flow }
    ensures fits { PortsFit flow }
{
    let mut bytes = [0, 0, 0, 0, flow.pad1, flow.tcp_flags, flow.prot, flow.tos];
    bytes[0..2].copy_from_slice(&flow.srcport.to_be_bytes());
    bytes[2..4].copy_from_slice(&flow.dstport.to_be_bytes());
    bytes
}

#[tactic(auto, unfolding(crate::specs::Encoding::network_bytes))]
fn encode_network(flow: FlowRecord) -> [u8; 8]
    ensures bytes { result ≡ network_bytes flow }
    ensures fits { NetworkFits flow }
{
    let mut bytes = [0, 0, 0, 0, flow.src_mask, flow.dst_mask, 0, 0];
    bytes[0..2].copy_from_slice(&flow.src_as.to_be_bytes());
    bytes[2..4].copy_from_slice(&flow.dst_as.to_be_bytes());
    bytes[6..8].copy_from_slice(&flow.pad2.to_be_bytes());
    bytes
}

#[tactic(auto, unfolding(crate::specs::Encoding::record_bytes))]
fn encode_record(flow: FlowRecord) -> [u8; RECORD]
    ensures bytes { result ≡ record_bytes flow }
    ensures read_back { record_of (record_bytes flow) ≡ flow }
{
    let mut bytes = [0; RECORD];
    bytes[0..16].copy_from_slice(&encode_route(flow));
    bytes[16..32].copy_from_slice(&encode_traffic(flow));
    bytes[32..40].copy_from_slice(&encode_transport(flow));
    bytes[40..48].copy_from_slice(&encode_network(flow));
    bytes
}

/// A record. Its numbers are in range, so its bytes read back.
pub(crate) fn add_record(bytes: &mut Vec<u8>, flow: &FlowRecord) -> Result<(), AllocError>
    ensures added { OnOk result (bytes.new.items ≡ bytes.old.items ++ record_bytes flow.now) }
    ensures read_back { OnOk result (record_of (record_bytes flow.now) ≡ flow.now) }
{
    bytes.extend_from_slice(&encode_record(*flow))
}

#[tactic(auto, unfolding(crate::specs::Encoding::clock_bytes))]
fn encode_clock(header: Header) -> [u8; 12]
    ensures bytes { result ≡ clock_bytes header }
    ensures fits { ClockFits header }
{
    let mut bytes = [0; 12];
    bytes[0..4].copy_from_slice(&header.sys_uptime.to_be_bytes());
    bytes[4..8].copy_from_slice(&header.unix_secs.to_be_bytes());
    bytes[8..12].copy_from_slice(&header.unix_nsecs.to_be_bytes());
    bytes
}

#[tactic(auto, unfolding(crate::specs::Encoding::exporter_bytes))]
fn encode_exporter(header: Header) -> [u8; 8]
    ensures bytes { result ≡ exporter_bytes header }
    ensures fits { ExporterFits header }
{
    let mut bytes = [0, 0, 0, 0, header.engine_type, header.engine_id, 0, 0];
    bytes[0..4].copy_from_slice(&header.flow_sequence.to_be_bytes());
    bytes[6..8].copy_from_slice(&header.sampling.to_be_bytes());
    bytes
}

#[tactic(auto, unfolding(crate::specs::Encoding::header_bytes))]
fn encode_header(header: Header, count: u16) -> [u8; HEADER]
    ensures bytes { result ≡ header_bytes header count }
    ensures read_back { header_of (header_bytes header count) ≡ header }
{
    let mut bytes = [0; HEADER];
    bytes[0..2].copy_from_slice(&VERSION.to_be_bytes());
    bytes[2..4].copy_from_slice(&count.to_be_bytes());
    bytes[4..16].copy_from_slice(&encode_clock(header));
    bytes[16..24].copy_from_slice(&encode_exporter(header));
    bytes
}

/// The header of a datagram with so many records. Its numbers are in range, so its bytes read back.
pub(crate) fn add_header(bytes: &mut Vec<u8>, header: &Header, count: u16) -> Result<(), AllocError>
    ensures added { OnOk result (bytes.new.items ≡ bytes.old.items ++ header_bytes header.now count) }
    ensures read_back { OnOk result (header_of (header_bytes header.now count) ≡ header.now) }
{
    bytes.extend_from_slice(&encode_header(*header, count))
}

/// Records one after the other.
fn add_records(bytes: &mut Vec<u8>, flows: &[FlowRecord]) -> Result<(), AllocError>
    ensures added { OnOk result (bytes.new.items ≡ bytes.old.items ++ flat_map record_bytes flows.now) }
    ensures read_back { OnOk result (map record_of (map record_bytes flows.now) ≡ flows.now) }
{
    for flow in flows {
        add_record(bytes, flow)?;
    }
    Ok(())
}

/// The datagram of a header and from 1 to 30 records.
pub fn encode(alloc: Global, header: &Header, flows: &[FlowRecord]) -> Result<Vec<u8>, NoMemory>
    requires some_records { 0 < length flows.now }
    requires few_records { length flows.now ≤ 30 }
    ensures datagram { IfOk result (λ bytes. IsDatagram bytes.items) }
    ensures header { IfOk result (λ bytes. header_of bytes.items ≡ header.now) }
    ensures records { IfOk result (λ bytes. records_of bytes.items ≡ flows.now) }
{
    let mut bytes = Vec::with_capacity(alloc, HEADER + RECORD * flows.len())?;
    add_header(&mut bytes, header, flows.len() as u16)?;
    add_records(&mut bytes, flows)?;
    Ok(bytes)
}
