ghost use Rattle.std.specs.Prelude.{◌≡◌, ◌<◌, ◌≤◌, List, ℕ, Option, length, take, IfOk, IfErr, OnOk, OnErr};
ghost use Rattle.wire_ports.specs.Ports.{HasRisen};
ghost use Rattle.wire_ports.specs.Bytes.{Appends};
ghost use Rattle.wire_ports.specs.Putting.{Writes, HasPut};

use crate::feed::Failed;

/// Takes bytes one piece after the other.
pub trait Sink {
    /// The bytes taken so far, where they are told.
    ghost taken: { Self → Option (List ℕ) };

    /// How often a write has failed. At 2^64 - 1 the count stands still, and counts as risen.
    ghost faults: { Self → ℕ };

    /// What a write may come to, as far as the sink tells: the sink before, the bytes that the
    /// write is offered, its answer, and the sink after.
    ghost writes: { Writes Self };

    /// Takes some first bytes, at least one, and tells how many.
    fn write(&mut self, bytes: &[u8]) -> Result<usize, Failed>
        requires { 0 < length bytes.now }
        ensures told { writes self.old bytes.now result self.new }
        ensures some { IfOk result (λ n. 0 < n) }
        ensures count { IfOk result (λ n. n ≤ length bytes.now) }
        ensures bytes { IfOk result (λ n.
            Appends (taken self.old) (take n bytes.now) (taken self.new)) }
        ensures kept { OnErr result (taken self.new ≡ taken self.old) }
        ensures steady { OnOk result (faults self.new ≡ faults self.old) }
        ensures later { faults self.old ≤ faults self.new }
        ensures risen { OnErr result (HasRisen (faults self.old) (faults self.new)) };
}

/// A write failed after so many bytes.
#[derive(Clone, Copy, Debug, PartialEq, Eq)]
pub struct PutFailed {
    pub written: usize,
}

/// Writes all the bytes. Each write is offered all bytes that are left.
pub fn put_all<O: Sink>(sink: &mut O, bytes: &[u8]) -> Result<(), PutFailed>
    ensures offers { HasPut O.writes bytes.now sink.old result sink.new }
    ensures ok { OnOk result (Appends (O.taken sink.old) bytes.now (O.taken sink.new)) }
    ensures within { IfErr result (λ e. e.written < length bytes.now) }
    ensures front { IfErr result (λ e.
        Appends (O.taken sink.old) (take e.written bytes.now) (O.taken sink.new)) }
    ensures steady { OnOk result (O.faults sink.new ≡ O.faults sink.old) }
    ensures later { O.faults sink.old ≤ O.faults sink.new }
    ensures risen { OnErr result (HasRisen (O.faults sink.old) (O.faults sink.new)) }
{
    let mut written = 0;
    'pieces: while written < bytes.len() {
        let (_, rest) = bytes.split_at(written);
        match sink.write(rest) {
            Ok(n) => written += n,
            Err(_) => return Err(PutFailed { written }),
        }
    }
    Ok(())
}
