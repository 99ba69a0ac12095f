ghost use Rattle.std.specs.Prelude.{◌≡◌};
ghost use Rattle.flow_fold.specs.Merge.{merge_of};
ghost use Rattle.flow_fold.specs.Pair.{record_value};
ghost use Rattle.flow_fold.specs.declared.value.Value.{Value};

use crate::moment::moment_of;
use netflow_five::{FlowRecord, Header};

/// What is added up for a flow.
#[derive(Clone, Copy, Debug, PartialEq, Eq)]
pub struct Value {
    pub packets: u64,
    pub octets: u64,
    /// The moment of the first packet, in milliseconds since 1970.
    pub first: u64,
    /// The moment of the last packet, in milliseconds since 1970.
    pub last: u64,
    /// The TCP flags of all packets, as bits of one byte.
    pub flags: u64,
}

/// How many words a value has.
pub const VALUE_WORDS: usize = 5;

impl Value {
    ghost use Rattle.flow_fold.specs.Words.{value_of_words, words_of};

    /// The packets, the octets, the moments of the first and the last packet, and the flags.
    pub fn words(self) -> [u64; VALUE_WORDS]
        ensures words { result ≡ words_of self }
        ensures undone { value_of_words result ≡ self }
    {
        [self.packets, self.octets, self.first, self.last, self.flags]
    }

    /// The value that has these words.
    pub fn of_words(words: [u64; VALUE_WORDS]) -> Self
        ensures value { result ≡ value_of_words words }
        ensures undone { words_of result ≡ words }
    {
        let [packets, octets, first, last, flags] = words;
        Value {
            packets,
            octets,
            first,
            last,
            flags,
        }
    }
}

/// The value of a record of the datagram that has this header.
pub fn value_of(header: &Header, flow: &FlowRecord) -> Value
    ensures { result ≡ record_value header.now flow.now }
{
    Value {
        packets: u64::from(flow.d_pkts),
        octets: u64::from(flow.d_octets),
        first: moment_of(header, flow.first),
        last: moment_of(header, flow.last),
        flags: u64::from(flow.tcp_flags),
    }
}

/// Both values as one: packets and octets are added modulo 2^64, `first` is the lesser and `last`
/// the greater, and `flags` has the bits of both.
pub fn merge(a: Value, b: Value) -> Value
    ensures merged { result ≡ merge_of a b }
    ensures commutes { merge_of a b ≡ merge_of b a }
    ensures associates { (c : Value) → merge_of (merge_of a b) c ≡ merge_of a (merge_of b c) }
{
    Value {
        packets: a.packets.wrapping_add(b.packets),
        octets: a.octets.wrapping_add(b.octets),
        first: a.first.min(b.first),
        last: a.last.max(b.last),
        flags: a.flags | b.flags,
    }
}
