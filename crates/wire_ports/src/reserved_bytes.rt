ghost use Rattle.std.specs.Prelude.{◌≡◌, ◌+◌, ◌-◌, ◌≤◌, ◌++◌, [], length, take, min, OnOk, OnErr, vec_len, vec_capacity};

use crate::no_memory::NoMemory;
use std::alloc::Global;

// Bytes that were taken, and room that was reserved for more.
#[derive(Drop)]
pub(crate) struct ReservedBytes {
    bytes: Vec<u8>,
    // The vector may have room for more than was asked for.
    room: usize,
    ghost fits: { vec_len bytes + room ≤ vec_capacity bytes },
}

impl ReservedBytes {
    pub(crate) fn new(alloc: Global) -> ReservedBytes
        ensures bytes { result.bytes.items ≡ [] }
        ensures room { result.room ≡ 0 }
    {
        ReservedBytes {
            bytes: Vec::new(alloc),
            room: 0,
        }
    }

    pub(crate) fn reserve(&mut self, more: usize) -> Result<(), NoMemory>
        ensures bytes { self.new.bytes.items ≡ self.old.bytes.items }
        ensures ok { OnOk result (self.new.room ≡ self.old.room + more) }
        ensures err { OnErr result (self.new.room ≡ self.old.room) }
    {
        let Some(room) = self.room.checked_add(more) else {
            return Err(NoMemory);
        };
        self.bytes.reserve(room)?;
        self.room = room;
        Ok(())
    }

    // Takes the first bytes, at most `most` and as many as there is room for.
    pub(crate) fn take(&mut self, most: usize, bytes: &[u8]) -> usize
        ensures count { result ≡ min most (min (length bytes.now) self.old.room) }
        ensures bytes { self.new.bytes.items ≡ self.old.bytes.items ++ take result bytes.now }
        ensures room { self.new.room ≡ self.old.room - result }
    {
        let n = bytes.len().min(self.room).min(most);
        let (front, _) = bytes.split_at(n);
        self.bytes.extend_from_slice(front).unwrap();
        self.room -= n;
        n
    }

    pub(crate) fn as_slice(&self) -> &[u8]
        ensures { result.now ≡ self.now.bytes.items }
    {
        self.bytes.as_slice()
    }
}
