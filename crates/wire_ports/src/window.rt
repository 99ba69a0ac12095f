ghost use Rattle.std.specs.Prelude.{◌≡◌, ◌<◌, ◌≤◌, ◌^◌, [], drop, true, length, IfErr, IfOk, OnErr};
ghost use Rattle.wire_ports.specs.FeedMoments.{feed_at, EndsEarly, ReadsBehind, ReadsRest};

use crate::feed::Feed;
use crate::no_memory::NoMemory;
use crate::whole::ReadEnd;
use std::alloc::Global;
use std::marker::Model;

/// How many bytes a window has room for.
const ROOM: usize = 1 << 18;

/// Bytes of a file that were read and not yet gone through. Its room is taken once, and serves for
/// one file after another.
#[derive(Drop)]
pub struct Window {
    buffer: Vec<u8>,
    filled: usize,
}

impl Model for Window {
    ghost use Rattle.std.specs.Prelude.{◌≡◌, ◌≤◌, ◌^◌, List, ℕ, length, take};

    ghost Value = { List ℕ };

    ghost view = { λ w. take w.filled w.buffer.items };

    ghost invariant = { λ w. (w.filled ≤ 2 ^ 18) × (length w.buffer.items ≡ 2 ^ 18) };
}

impl Window {
    /// Nothing was read yet.
    pub fn new(alloc: Global) -> Result<Window, NoMemory>
        ensures { IfOk result (λ window. window ≡ []) }
    {
        let mut buffer = Vec::new(alloc);
        buffer.resize(ROOM, 0)?;
        Ok(Window { buffer, filled: 0 })
    }

    /// The bytes, in the order in which they were read.
    pub fn as_slice(&self) -> &[u8]
        ensures { result.now ≡ self.now }
    {
        let (bytes, _) = self.buffer.as_slice().split_at(self.filled);
        bytes
    }

    /// Lets go of all bytes.
    pub fn clear(&mut self)
        ensures { self.new ≡ [] }
    {
        self.filled = 0;
    }

    /// Lets go of the first bytes, which were gone through.
    pub fn skip(&mut self, count: usize)
        requires { count ≤ length self.old }
        ensures { self.new ≡ drop count self.old }
    {
        self.buffer.copy_within(count..self.filled, 0);
        self.filled -= count;
    }

    /// Reads some next bytes of the started file, which may have at most `most` more, behind those
    /// that are here, and tells how many; 0 at the file's end. It asks for at most one byte past `most`.
    pub fn fill<F: Feed>(&mut self, feed: &mut F, most: usize) -> Result<usize, ReadEnd>
        requires started { F.started feed.old ≡ true }
        requires room { length self.old < 2 ^ 18 }
        ensures most { IfOk result (λ n. n ≤ most) }
        ensures read { let at = feed_at F.files F.left F.given F.current F.started F.faults F.failed in
            IfOk result (λ n. ReadsBehind self.old (at feed.old) n self.new (at feed.new)) }
        ensures end { let at = feed_at F.files F.left F.given F.current F.started F.faults F.failed in
            IfErr result (EndsEarly most (at feed.old) (at feed.new)) }
        ensures kept { OnErr result (self.new ≡ self.old) }
    {
        let ask = most.min(ROOM - 1 - self.filled) + 1;
        let n = match feed.read(&mut self.buffer[self.filled..self.filled + ask]) {
            Ok(n) => n,
            Err(_) => return Err(ReadEnd::Failed),
        };
        if n > most {
            return Err(ReadEnd::TooLarge);
        }
        self.filled += n;
        Ok(n)
    }
}

/// Reads the started file to its end, of which there may be at most `most` bytes, and keeps none of
/// them. Tells how many they were.
pub fn pass_rest<F: Feed>(feed: &mut F, window: &mut Window, most: usize) -> Result<usize, ReadEnd>
    requires { F.started feed.old ≡ true }
    ensures most { IfOk result (λ n. n ≤ most) }
    ensures rest { let at = feed_at F.files F.left F.given F.current F.started F.faults F.failed in
        IfOk result (λ n. ReadsRest (at feed.old) n (at feed.new)) }
    ensures end { let at = feed_at F.files F.left F.given F.current F.started F.faults F.failed in
        IfErr result (EndsEarly most (at feed.old) (at feed.new)) }
{
    let mut passed = 0;
    'pieces: loop {
        window.clear();
        match window.fill(feed, most - passed) {
            Ok(0) => return Ok(passed),
            Ok(n) => passed += n,
            Err(end) => return Err(end),
        }
    }
}
