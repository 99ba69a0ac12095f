ghost use Rattle.std.specs.Prelude.{◌≡◌, ◌<◌, ◌≤◌, None, length, if◌then◌else◌, is_err, IfOk, OnErr};
ghost use Rattle.wire_ports.specs.Ports.{HasRisen, one_more};

use crate::feed::Failed;
use crate::sink::Sink;
use std::io::Write;
use std::marker::Model;

/// Standard output or standard error. It tells no content. Contracts see it as its count
/// of faults.
#[derive(Drop)]
pub struct StdSink<W: Write> {
    writer: W,
    faults: u64,
}

impl<W: Write> Model for StdSink<W> {
    ghost use Rattle.std.specs.Prelude.{ℕ};

    ghost Value = { ℕ };

    ghost view = { λ s. s.faults };
}

impl<W: Write> StdSink<W> {
    /// Nothing has failed.
    pub fn new(writer: W) -> StdSink<W>
        ensures { result ≡ 0 }
    {
        StdSink { writer, faults: 0 }
    }
}

impl<W: Write> Sink for StdSink<W> {
    ghost taken = { λ s. None };

    ghost faults = { λ s. s };

    ghost writes = { λ s bytes answer t. t ≡ (if is_err answer then one_more s else s) };

    fn write(&mut self, bytes: &[u8]) -> Result<usize, Failed>
        requires { 0 < length bytes.now }
        ensures some { IfOk result (λ n. 0 < n) }
        ensures count { IfOk result (λ n. n ≤ length bytes.now) }
        ensures faults { self.new ≡ (if is_err result then one_more self.old else self.old) }
        ensures later { self.old ≤ self.new }
        ensures risen { OnErr result (HasRisen self.old self.new) }
    {
        match self.writer.write(bytes) {
            Ok(n) if n > 0 => Ok(n),
            _ => {
                self.faults = self.faults.saturating_add(1);
                Err(Failed)
            }
        }
    }
}
