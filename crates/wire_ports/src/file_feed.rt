ghost use Rattle.std.specs.Prelude.{◌≡◌, ◌<◌, ◌≤◌, None, false, true, length, IfOk, OnErr, OnOk};
ghost use Rattle.wire_ports.specs.FileReading.{after_start, after_failed_start, after_read, after_failed_read};
ghost use Rattle.wire_ports.specs.Ports.{HasRisen};

use crate::feed::{Failed, FailedIn, Feed};
use std::fs;
use std::io::Read;
use std::marker::Model;
use std::rt::Files;

/// std's files. It tells no content: what a real file holds is beyond any clause.
#[derive(Drop)]
pub struct FileFeed<'a, R: Files> {
    rt: &'a R,
    file: Option<R::File>,
    given: usize,
    current: u32,
    faults: u64,
    failed: Option<(u32, FailedIn)>,
}

impl<'a, R: Files> Model for FileFeed<'a, R> {
    ghost use Rattle.std.specs.Prelude.{is_some};
    ghost use Rattle.wire_ports.specs.FileReading.{FileReading};

    ghost Value = { FileReading };

    ghost view = { λ f. record {
      given = f.given;
      current = f.current;
      started = is_some f.file;
      faults = f.faults;
      failed = f.failed;
    } };
}

impl<'a, R: Files> FileFeed<'a, R> {
    /// Nothing is started, and nothing has failed.
    pub fn new(rt: &'a R) -> FileFeed<'a, R>
        ensures { result ≡ record {
          given = 0;
          current = 0;
          started = false;
          faults = 0;
          failed = None;
        } }
    {
        FileFeed {
            rt,
            file: None,
            given: 0,
            current: 0,
            faults: 0,
            failed: None,
        }
    }
}

impl<R: Files> Feed for FileFeed<'_, R> {
    ghost files = { λ f. None };

    ghost left = { λ f. None };

    ghost given = { λ f. f.given };

    ghost current = { λ f. f.current };

    ghost started = { λ f. f.started };

    ghost faults = { λ f. f.faults };

    ghost failed = { λ f. f.failed };

    fn start(&mut self, file: u32, name: &str) -> Result<(), Failed>
        ensures ok { OnOk result (self.new ≡ after_start self.old file) }
        ensures err { OnErr result (self.new ≡ after_failed_start self.old file) }
        ensures later { self.old.faults ≤ self.new.faults }
        ensures risen { OnErr result (HasRisen self.old.faults self.new.faults) }
    {
        self.current = file;
        self.given = 0;
        match fs::open(self.rt, name) {
            Ok(opened) => {
                self.file = Some(opened);
                Ok(())
            }
            Err(_) => {
                self.file = None;
                self.faults = self.faults.saturating_add(1);
                self.failed = Some((file, FailedIn::Start));
                Err(Failed)
            }
        }
    }

    // A file of more than 2^64 - 1 bytes can't be counted, and fails.
    fn read(&mut self, into: &mut [u8]) -> Result<usize, Failed>
        requires started { self.old.started ≡ true }
        requires room { 0 < length into.old }
        ensures count { IfOk result (λ n. n ≤ length into.new) }
        ensures ok { IfOk result (λ n. self.new ≡ after_read self.old n) }
        ensures err { OnErr result (self.new ≡ after_failed_read self.old) }
        ensures later { self.old.faults ≤ self.new.faults }
        ensures risen { OnErr result (HasRisen self.old.faults self.new.faults) }
    {
        let file = self.file.as_mut().unwrap();
        if let Ok(n) = file.read(into) {
            if let Some(given) = self.given.checked_add(n) {
                self.given = given;
                return Ok(n);
            }
        }
        self.faults = self.faults.saturating_add(1);
        self.failed = Some((self.current, FailedIn::Read));
        Err(Failed)
    }
}
