ghost use Rattle.std.specs.Prelude.{◌≡◌, ◌<◌, ◌≤◌, ◌⊎◌, ◌↔◌, Some, [], length, take, min, IsErr, IfOk, OnErr};
ghost use Rattle.wire_ports.specs.MemoryTaking.{IsDue, IsWrite, after_write, after_failed_write};
ghost use Rattle.wire_ports.specs.Ports.{HasRisen};

use crate::failing_calls::FailingCalls;
use crate::feed::Failed;
use crate::no_memory::NoMemory;
use crate::reserved_bytes::ReservedBytes;
use crate::sink::Sink;
use std::alloc::Global;
use std::marker::Model;

/// A sink over memory that takes pieces of a bounded size, and fails by a list.
#[derive(Drop)]
pub struct MemorySink {
    bytes: ReservedBytes,
    calls: FailingCalls,
    piece: usize,
    faults: u64,
}

impl Model for MemorySink {
    ghost use Rattle.std.specs.Prelude.{◌<◌};
    ghost use Rattle.wire_ports.specs.MemoryTaking.{MemoryTaking};

    ghost Value = { MemoryTaking };

    ghost view = { λ s. record {
      taking = record { taken = s.bytes.bytes.items; room = s.bytes.room; faults = s.faults };
      failing = s.calls.listed.items;
      calls = s.calls.made;
      piece = s.piece;
    } };

    ghost invariant = { λ s. 0 < s.piece };
}

impl MemorySink {
    /// Takes room for `room` bytes. Writes are counted from 1, and those that `failing` lists fail.
    /// A write takes at most `piece` bytes.
    pub fn new(
        alloc: Global,
        failing: Vec<u32>,
        piece: usize,
        room: usize,
    ) -> Result<MemorySink, NoMemory>
        requires { 0 < piece }
        ensures { IfOk result (λ sink. sink ≡ record {
          taking = record { taken = []; room = room; faults = 0 };
          failing = failing.items;
          calls = 0;
          piece = piece;
        }) }
    {
        let mut bytes = ReservedBytes::new(alloc);
        bytes.reserve(room)?;
        Ok(MemorySink {
            bytes,
            calls: FailingCalls::new(failing),
            piece,
            faults: 0,
        })
    }

    /// The bytes that were taken.
    pub fn as_slice(&self) -> &[u8]
        ensures { result.now ≡ self.now.taking.taken }
    {
        self.bytes.as_slice()
    }
}

impl Sink for MemorySink {
    ghost taken = { λ s. Some s.taking.taken };

    ghost faults = { λ s. s.taking.faults };

    ghost writes = { λ s bytes answer t. IsWrite bytes s answer t };

    fn write(&mut self, bytes: &[u8]) -> Result<usize, Failed>
        requires { 0 < length bytes.now }
        ensures some { 0 < self.old.piece }
        ensures fails { IsErr result ↔ (IsDue self.old ⊎ (self.old.taking.room ≡ 0)) }
        ensures count { IfOk result (λ n.
            n ≡ min self.old.piece (min (length bytes.now) self.old.taking.room)) }
        ensures ok { IfOk result (λ n. self.new ≡ after_write self.old (take n bytes.now)) }
        ensures err { OnErr result (self.new ≡ after_failed_write self.old) }
        ensures later { self.old.taking.faults ≤ self.new.taking.faults }
        ensures risen { OnErr result (HasRisen self.old.taking.faults self.new.taking.faults) }
    {
        if !self.calls.count() {
            let n = self.bytes.take(self.piece, bytes);
            if n > 0 {
                return Ok(n);
            }
        }
        self.faults = self.faults.saturating_add(1);
        Err(Failed)
    }
}
