ghost use Rattle.std.specs.Prelude.{◌≡◌, ◌<◌, ◌≤◌, ◌⊎◌, ◌↔◌, None, Some, [], false, length, take, min, IfOk, IsErr, OnErr, OnOk};
ghost use Rattle.wire_ports.specs.declared.feed.FailedIn.TheVariants.{Start, Unknown};
ghost use Rattle.wire_ports.specs.MemoryReading.{IsDue, IsMissing, after_start, after_failed_start, after_read, after_failed_read};
ghost use Rattle.wire_ports.specs.NamedBytes.{names_of};
ghost use Rattle.wire_ports.specs.Ports.{HasRisen};

use crate::failing_calls::FailingCalls;
use crate::feed::{Failed, FailedIn, Feed};
use crate::memory_files::MemoryFiles;
use crate::named::NamedBytes;
use std::marker::Model;

/// A feed over memory that gives pieces of a bounded size, and fails by a list.
#[derive(Drop)]
pub struct MemoryFeed {
    files: MemoryFiles,
    current: u32,
    started: bool,
    calls: FailingCalls,
    piece: usize,
    faults: u64,
    failed: Option<(u32, FailedIn)>,
}

impl Model for MemoryFeed {
    ghost use Rattle.std.specs.Prelude.{◌<◌};
    ghost use Rattle.wire_ports.specs.MemoryReading.{MemoryReading};
    ghost use Rattle.wire_ports.specs.MemoryFiles.{left_in};

    ghost Value = { MemoryReading };

    ghost view = { λ f. record {
      reading = record {
        files = f.files.files.items;
        left = left_in f.files;
        given = f.files.at;
        current = f.current;
        started = f.started;
      };
      failing = f.calls.listed.items;
      calls = f.calls.made;
      piece = f.piece;
      faults = f.faults;
      failed = f.failed;
    } };

    ghost invariant = { λ f. 0 < f.piece };
}

impl MemoryFeed {
    /// Nothing is started, and nothing has failed. Starts and reads are counted together from 1,
    /// and those that `failing` lists fail. A read gives at most `piece` bytes.
    pub fn new(files: Vec<NamedBytes>, failing: Vec<u32>, piece: usize) -> MemoryFeed
        requires { 0 < piece }
        ensures { result ≡ record {
          reading = record {
            files = files.items;
            left = [];
            given = 0;
            current = 0;
            started = false;
          };
          failing = failing.items;
          calls = 0;
          piece = piece;
          faults = 0;
          failed = None;
        } }
    {
        MemoryFeed {
            files: MemoryFiles::new(files),
            current: 0,
            started: false,
            calls: FailingCalls::new(failing),
            piece,
            faults: 0,
            failed: None,
        }
    }
}

impl Feed for MemoryFeed {
    ghost files = { λ f. Some (names_of f.reading.files) };

    ghost left = { λ f. Some f.reading.left };

    ghost given = { λ f. f.reading.given };

    ghost current = { λ f. f.reading.current };

    ghost started = { λ f. f.reading.started };

    ghost faults = { λ f. f.faults };

    ghost failed = { λ f. f.failed };

    // A start that is listed fails as one, whether or not the name is known.
    fn start(&mut self, file: u32, name: &str) -> Result<(), Failed>
        ensures fails { IsErr result ↔ (IsDue self.old ⊎ IsMissing self.old name.now) }
        ensures ok { OnOk result (self.new ≡ after_start self.old file name.now) }
        ensures listed { IsDue self.old → self.new ≡ after_failed_start self.old file Start }
        ensures unknown { ¬ IsDue self.old →
            OnErr result (self.new ≡ after_failed_start self.old file Unknown) }
        ensures later { self.old.faults ≤ self.new.faults }
        ensures risen { OnErr result (HasRisen self.old.faults self.new.faults) }
    {
        let due = self.calls.count();
        let known = self.files.open(name);
        self.current = file;
        self.started = known && !due;
        if self.started {
            return Ok(());
        }
        self.files.close();
        self.faults = self.faults.saturating_add(1);
        let kind = if due {
            FailedIn::Start
        } else {
            FailedIn::Unknown
        };
        self.failed = Some((file, kind));
        Err(Failed)
    }

    fn read(&mut self, into: &mut [u8]) -> Result<usize, Failed>
        ensures some { 0 < self.old.piece }
        ensures fails { IsErr result ↔ IsDue self.old }
        ensures count { IfOk result (λ n.
            n ≡ min self.old.piece (min (length into.old) (length self.old.reading.left))) }
        ensures bytes { IfOk result (λ n. take n into.new ≡ take n self.old.reading.left) }
        ensures ok { IfOk result (λ n. self.new ≡ after_read self.old n) }
        ensures err { OnErr result (self.new ≡ after_failed_read self.old) }
        ensures later { self.old.faults ≤ self.new.faults }
        ensures risen { OnErr result (HasRisen self.old.faults self.new.faults) }
    {
        if self.calls.count() {
            self.faults = self.faults.saturating_add(1);
            self.failed = Some((self.current, FailedIn::Read));
            return Err(Failed);
        }
        Ok(self.files.read(self.piece, into))
    }
}
