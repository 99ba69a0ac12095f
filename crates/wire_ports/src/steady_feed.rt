ghost use Rattle.std.specs.Prelude.{◌≡◌, Ok, Some, None, [], false, length, take, min, IfOk, IsOk};
ghost use Rattle.wire_ports.specs.NamedBytes.{names_of};
ghost use Rattle.wire_ports.specs.Reading.{after_start, after_read};

use crate::feed::{Failed, Feed};
use crate::memory_files::MemoryFiles;
use crate::named::NamedBytes;
use std::marker::Model;

/// A feed over memory. It never fails, and a name that it hasn't starts an empty file.
#[derive(Drop)]
pub struct SteadyFeed {
    files: MemoryFiles,
    current: u32,
    started: bool,
}

impl Model for SteadyFeed {
    ghost use Rattle.wire_ports.specs.Reading.{Reading};
    ghost use Rattle.wire_ports.specs.MemoryFiles.{left_in};

    ghost Value = { Reading };

    ghost view = { λ f. record {
      files = f.files.files.items;
      left = left_in f.files;
      given = f.files.at;
      current = f.current;
      started = f.started;
    } };
}

impl SteadyFeed {
    /// Nothing is started.
    pub fn new(files: Vec<NamedBytes>) -> SteadyFeed
        ensures { result ≡ record {
          files = files.items;
          left = [];
          given = 0;
          current = 0;
          started = false;
        } }
    {
        SteadyFeed {
            files: MemoryFiles::new(files),
            current: 0,
            started: false,
        }
    }
}

impl Feed for SteadyFeed {
    ghost files = { λ f. Some (names_of f.files) };

    ghost left = { λ f. Some f.left };

    ghost given = { λ f. f.given };

    ghost current = { λ f. f.current };

    ghost started = { λ f. f.started };

    ghost faults = { λ f. 0 };

    ghost failed = { λ f. None };

    fn start(&mut self, file: u32, name: &str) -> Result<(), Failed>
        ensures ok { IsOk result }
        ensures start { self.new ≡ after_start self.old file name.now }
    {
        self.files.open(name);
        self.current = file;
        self.started = true;
        Ok(())
    }

    fn read(&mut self, into: &mut [u8]) -> Result<usize, Failed>
        ensures ok { result ≡ Ok (min (length into.old) (length self.old.left)) }
        ensures bytes { IfOk result (λ n. take n into.new ≡ take n self.old.left) }
        ensures read { IfOk result (λ n. self.new ≡ after_read self.old n) }
    {
        Ok(self.files.read(into.len(), into))
    }
}
