ghost use Rattle.std.specs.Prelude.{◌≡◌, ◌+◌, ◌<◌, ◌≤◌, ◌↔◌, Some, [], length, take, min, IsErr, IfOk, OnOk, OnErr};
ghost use Rattle.wire_ports.specs.Ports.{HasRisen};
ghost use Rattle.wire_ports.specs.Taking.{IsWrite, after_write, after_failed_write};

use crate::feed::Failed;
use crate::no_memory::NoMemory;
use crate::reserved_bytes::ReservedBytes;
use crate::sink::Sink;
use std::alloc::Global;
use std::marker::Model;

/// A sink that takes as many bytes as were reserved for it.
#[derive(Drop)]
pub struct SteadySink {
    bytes: ReservedBytes,
    faults: u64,
}

impl Model for SteadySink {
    ghost use Rattle.wire_ports.specs.Taking.{Taking};

    ghost Value = { Taking };

    ghost view = { λ s. record {
      taken = s.bytes.bytes.items;
      room = s.bytes.room;
      faults = s.faults;
    } };
}

impl SteadySink {
    /// It has no room yet.
    pub fn new(alloc: Global) -> SteadySink
        ensures { result ≡ record { taken = []; room = 0; faults = 0 } }
    {
        SteadySink {
            bytes: ReservedBytes::new(alloc),
            faults: 0,
        }
    }

    /// Makes room for so many more bytes.
    pub fn reserve(&mut self, bytes: usize) -> Result<(), NoMemory>
        ensures ok { OnOk result (self.new ≡ record self.old { room = self.old.room + bytes }) }
        ensures err { OnErr result (self.new ≡ self.old) }
    {
        self.bytes.reserve(bytes)
    }

    /// The bytes that were taken.
    pub fn as_slice(&self) -> &[u8]
        ensures { result.now ≡ self.now.taken }
    {
        self.bytes.as_slice()
    }
}

impl Sink for SteadySink {
    ghost taken = { λ s. Some s.taken };

    ghost faults = { λ s. s.faults };

    ghost writes = { λ s bytes answer t. IsWrite bytes s answer t };

    fn write(&mut self, bytes: &[u8]) -> Result<usize, Failed>
        requires { 0 < length bytes.now }
        ensures fails { IsErr result ↔ (self.old.room ≡ 0) }
        ensures count { IfOk result (λ n. n ≡ min (length bytes.now) self.old.room) }
        ensures ok { IfOk result (λ n. self.new ≡ after_write self.old (take n bytes.now)) }
        ensures err { OnErr result (self.new ≡ after_failed_write self.old) }
        ensures later { self.old.faults ≤ self.new.faults }
        ensures risen { OnErr result (HasRisen self.old.faults self.new.faults) }
    {
        let n = self.bytes.take(bytes.len(), bytes);
        if n == 0 {
            self.faults = self.faults.saturating_add(1);
            return Err(Failed);
        }
        Ok(n)
    }
}
