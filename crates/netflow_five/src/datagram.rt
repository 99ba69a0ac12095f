ghost use Rattle.std.specs.Prelude.{◌≡◌, ◌+◌, ◌<◌, ◌≤◌, length, drop, take, Some, slice_get, IfOk, IfErr, OnErr};
ghost use Rattle.netflow_five.specs.Datagram.{IsDatagram, BeginsWithDatagram, count_of, records_of};
ghost use Rattle.netflow_five.specs.Fault.{IsFault};
ghost use Rattle.netflow_five.specs.Header.{header_of};
ghost use Rattle.netflow_five.specs.Mark.{mark_of};

use crate::field::u16_at;
use crate::header::{Header, header_at};
use crate::malformed::Malformed;
use crate::record::{FlowRecord, record_at};
use crate::seq_mark::SeqMark;

/// The version that each datagram has.
pub(crate) const VERSION: u16 = 5;

/// The bytes of a datagram's header.
pub(crate) const HEADER: usize = 24;

/// The bytes of a record.
pub(crate) const RECORD: usize = 48;

/// A whole datagram, which borrows its bytes.
#[derive(Clone, Copy, Debug)]
pub struct Datagram<'a> {
    pub bytes: &'a [u8],
    ghost whole: { IsDatagram bytes.now },
}

#[tactic(auto, unfolding(crate::specs::Datagram::count_of))]
impl Datagram<'_> {
    pub fn header(&self) -> Header
        ensures { result ≡ header_of self.now.bytes.now }
    {
        header_at(self.bytes)
    }

    /// How many records it has, from 1 to 30.
    pub fn count(&self) -> u32
        ensures { result ≡ count_of self.now.bytes.now }
    {
        u32::from(u16_at(self.bytes, 2))
    }

    /// Its place among the flows of its engine.
    pub fn mark(&self) -> SeqMark
        ensures { result ≡ mark_of self.now.bytes.now }
    {
        let header = self.header();
        SeqMark {
            engine_type: header.engine_type,
            engine_id: header.engine_id,
            sequence: header.flow_sequence,
            count: self.count(),
        }
    }

    /// How many bytes it has.
    pub fn size(&self) -> usize
        ensures { result ≡ length self.now.bytes.now }
    {
        self.bytes.len()
    }

    /// A record. They are numbered from 0.
    pub fn flow(&self, i: u32) -> FlowRecord
        requires { i < count_of self.now.bytes.now }
        ensures { slice_get (records_of self.now.bytes.now) i ≡ Some result }
    {
        let start = HEADER + RECORD * i as usize;
        let (_, rest) = self.bytes.split_at(start);
        let (part, _) = rest.split_at(RECORD);
        record_at(part)
    }
}

#[tactic(auto, unfolding(crate::specs::Datagram::count_of, crate::specs::Datagram::version_of), using(crate::proofs::Front::field_front))]
/// The datagram that begins at a place, or the first test that the bytes from there fail. Takes no
/// memory, and looks at no byte after the datagram's header.
pub fn decode(bytes: &[u8], at: usize) -> Result<Datagram<'_>, Malformed>
    requires { at < length bytes.now }
    ensures place { IfOk result (λ d. d.bytes.now ≡ take (length d.bytes.now) (drop at bytes.now)) }
    ensures within { IfOk result (λ d. at + length d.bytes.now ≤ length bytes.now) }
    ensures fault { IfErr result (IsFault (drop at bytes.now)) }
    ensures none { OnErr result (BeginsWithDatagram (drop at bytes.now) → ⊥) }
{
    let (_, rest) = bytes.split_at(at);
    let left = rest.len();
    if left < HEADER {
        return Err(Malformed::ShortHeader { left });
    }
    let version = u16_at(rest, 0);
    if version != VERSION {
        return Err(Malformed::Version { found: version });
    }
    let count = u16_at(rest, 2);
    if count == 0 || count > 30 {
        return Err(Malformed::Count { found: count });
    }
    let left = left - HEADER;
    let wanted = RECORD * count as usize;
    if left < wanted {
        return Err(Malformed::ShortRecords { left, wanted });
    }
    let (whole, _) = rest.split_at(HEADER + wanted);
    Ok(Datagram { bytes: whole })
}
