ghost use Rattle.std.specs.Prelude.{◌≡◌, ◌+◌, ◌<◌, ◌≤◌, ◌↔◌, List, ℕ, Bool, Option, Some, true, length, take, is_ok, IfOk, IfSome, OnOk, OnErr};
ghost use Rattle.wire_ports.specs.declared.feed.FailedIn.{FailedIn};
ghost use Rattle.wire_ports.specs.declared.feed.FailedIn.TheVariants.{Read};
ghost use Rattle.wire_ports.specs.Ports.{HasRisen, Names, left_at_start, IsStartFailure};
ghost use Rattle.wire_ports.specs.Bytes.{IsReadOf};

/// A call of a port failed. The port's count of faults rose.
#[derive(Clone, Copy, Debug, PartialEq, Eq)]
pub struct Failed;

/// In which call a feed failed last.
#[derive(Clone, Copy, Debug, PartialEq, Eq)]
pub enum FailedIn {
    /// The start of a file.
    Start,
    /// The start of a name that the feed hasn't.
    Unknown,
    /// A read.
    Read,
}

/// Named files, one of which is read at a time.
pub trait Feed {
    /// The bytes under each name, where they are told.
    ghost files: { Self → Option Names };

    /// The bytes of the started file that weren't read yet, where they are told.
    ghost left: { Self → Option (List ℕ) };

    /// How many bytes the reads of the started file gave, told or not.
    ghost given: { Self → ℕ };

    /// The number that was given to the last start.
    ghost current: { Self → ℕ };

    /// Whether a file is started.
    ghost started: { Self → Bool };

    /// How often a call has failed. At 2^64 - 1 the count stands still, and counts as risen.
    ghost faults: { Self → ℕ };

    /// The number of the file and the call of the last failure, if any.
    ghost failed: { Self → Option (ℕ × FailedIn) };

    /// Starts the file with this name, from its first byte. Where it fails, no file is started. The
    /// number stands in `failed` where the start or a read fails.
    fn start(&mut self, file: u32, name: &str) -> Result<(), Failed>
        ensures files { files self.new ≡ files self.old }
        ensures current { current self.new ≡ file }
        ensures started { started self.new ≡ is_ok result }
        ensures left { OnOk result (left self.new ≡ left_at_start (files self.old) name.now) }
        ensures given { OnOk result (given self.new ≡ 0) }
        ensures quiet { OnOk result (failed self.new ≡ failed self.old) }
        ensures steady { OnOk result (faults self.new ≡ faults self.old) }
        ensures later { faults self.old ≤ faults self.new }
        ensures risen { OnErr result (HasRisen (faults self.old) (faults self.new)) }
        ensures cause { OnErr result
            (IsStartFailure (files self.old) name.now file (failed self.new)) };

    /// Reads some next bytes into the front of `into`, and tells how many; 0 at the file's end.
    fn read(&mut self, into: &mut [u8]) -> Result<usize, Failed>
        requires started { started self.old ≡ true }
        requires room { 0 < length into.old }
        ensures files { files self.new ≡ files self.old }
        ensures current { current self.new ≡ current self.old }
        ensures started { OnOk result (started self.new ≡ true) }
        ensures count { IfOk result (λ n. n ≤ length into.new) }
        ensures bytes { IfOk result (λ n.
            IsReadOf (left self.old) (take n into.new) (left self.new)) }
        ensures end { IfOk result (λ n. IfSome (left self.old)
            (λ bytes. (n ≡ 0) ↔ (length bytes ≡ 0))) }
        ensures given { IfOk result (λ n. given self.new ≡ given self.old + n) }
        ensures quiet { OnOk result (failed self.new ≡ failed self.old) }
        ensures kept { OnErr result (left self.new ≡ left self.old) }
        ensures none_given { OnErr result (given self.new ≡ given self.old) }
        ensures steady { OnOk result (faults self.new ≡ faults self.old) }
        ensures later { faults self.old ≤ faults self.new }
        ensures risen { OnErr result (HasRisen (faults self.old) (faults self.new)) }
        ensures cause { OnErr result (failed self.new ≡ Some (current self.old, Read)) };
}
