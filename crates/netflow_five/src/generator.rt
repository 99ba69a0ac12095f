//! Exports to try things with: records of 1,024 flows, made of numbers.
ghost use Rattle.std.specs.Prelude.{◌≡◌, ◌+◌, ◌<◌, ◌≤◌, ◌++◌, map, suc, IfOk, OnOk, ℕ};
ghost use Rattle.std.specs.List.{flat_map};
ghost use Rattle.netflow_five.specs.Encoding.{record_bytes};
ghost use Rattle.netflow_five.specs.File.{IsWellFormed};
ghost use Rattle.netflow_five.specs.Generating.{count_at, datagram_at, drawn_flow, flow_at, generated, header_at, mixed, number_after, numbers_from, records_before};

use crate::datagram::{HEADER, RECORD};
use crate::encoding::{add_header, add_record};
use crate::header::Header;
use crate::record::FlowRecord;
use std::alloc::{AllocError, Global};
use wire_ports::NoMemory;

const MULTIPLIER: u64 = 6_364_136_223_846_793_005;

const INCREMENT: u64 = 1_442_695_040_888_963_407;

/// The records of a round of datagrams, of which each has one more than the one before it.
const ROUND: u32 = 30;

// The number after another one.
fn mix(number: u64) -> u64
    ensures { result ≡ mixed number }
{
    number.wrapping_mul(MULTIPLIER).wrapping_add(INCREMENT)
}

// The record j, made of its number.
#[tactic(auto, unfolding(crate::specs::Generating::drawn_flow))]
fn draw_flow(j: u32, number: u64) -> FlowRecord
    ensures { result ≡ drawn_flow j number }
{
    let low = (number % 1024) as u16;
    let packets = j % 8 + 1;
    let first = (number >> 40) as u32;
    FlowRecord {
        srcaddr: 0x0A00_0000 + u32::from(low),
        dstaddr: 0xC000_0200 + u32::from(low % 256),
        nexthop: 0,
        input: low % 4 + 1,
        output: 0,
        d_pkts: packets,
        d_octets: 100 * packets,
        first,
        last: first + ((number >> 32) % 256) as u32,
        srcport: 1024 + low,
        dstport: 443,
        pad1: 0,
        tcp_flags: 24,
        prot: if number % 2 == 0 { 6 } else { 17 },
        tos: 0,
        src_as: 0,
        dst_as: 0,
        src_mask: 0,
        dst_mask: 0,
        pad2: 0,
    }
}

// How many records the datagrams before this one have: 465 a round.
fn count_before(i: u32) -> u32
    requires { i ≤ 65536 }
    ensures { result ≡ records_before i }
{
    let more = i % ROUND;
    465 * (i / ROUND) + more * (more + 1) / 2
}

#[tactic(auto, unfolding(crate::specs::Generating::header_at))]
fn header_of(i: u32) -> Header
    requires { i ≤ 65536 }
    ensures { result ≡ header_at i }
{
    Header {
        sys_uptime: 20_000_000 + i,
        unix_secs: 1_700_000_000 + i,
        unix_nsecs: 0,
        flow_sequence: count_before(i),
        engine_type: 0,
        engine_id: 0,
        sampling: 0,
    }
}

// Adds so many records, the first of which is the record j, whose number comes after this one. Answers
// the number of the last.
fn add_flows(bytes: &mut Vec<u8>, number: u64, j: u32, count: u32) -> Result<u64, AllocError>
    requires few { j + count < 2000000 }
    ensures { (start : ℕ) → number ≡ number_after start j
        → OnOk result (bytes.new.items ≡ bytes.old.items ++ flat_map record_bytes (map (flow_at start) (numbers_from j count)))
        × IfOk result (λ last. last ≡ number_after start (j + count)) }
{
    let mut last = number;
    for k in 0..count {
        last = mix(last);
        add_record(bytes, &draw_flow(j + k, last))?;
    }
    Ok(last)
}

/// So many datagrams, from a number: the datagram i has `i % 30 + 1` records, and each record is made
/// of the number after the one before it.
pub fn generate(alloc: Global, start: u64, datagrams: u32) -> Result<Vec<u8>, NoMemory>
    requires few { datagrams ≤ 65536 }
    ensures generated { IfOk result (λ bytes. bytes.items ≡ generated start datagrams) }
    ensures well_formed { IfOk result (λ bytes. IsWellFormed bytes.items) }
{
    let records = count_before(datagrams);
    let size = HEADER * datagrams as usize + RECORD * records as usize;
    let mut bytes = Vec::with_capacity(alloc, size)?;
    let mut number = start;
    for i in 0..datagrams {
        let header = header_of(i);
        let count = i % ROUND + 1;
        add_header(&mut bytes, &header, count as u16)?;
        number = add_flows(&mut bytes, number, header.flow_sequence, count)?;
    }
    Ok(bytes)
}
