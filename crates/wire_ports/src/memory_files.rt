ghost use Rattle.std.specs.Prelude.{◌≡◌, ◌+◌, ◌-◌, ◌^◌, ◌<◌, [], is_some, length, take, drop, min};
ghost use Rattle.std.specs.FinMap as map;
ghost use Rattle.std.specs.Str.{bytes_eq};
ghost use Rattle.wire_ports.specs.NamedBytes.{names_of, first_place};
ghost use Rattle.wire_ports.specs.Ports.{bytes_under};

use crate::named::NamedBytes;

// Files in memory, one of which is read from its first byte on.
#[derive(Drop)]
pub(crate) struct MemoryFiles {
    files: Vec<NamedBytes>,
    // The place of the file that is read. It is the number of files where none is.
    place: usize,
    // How many of its bytes were read.
    at: usize,
}

impl MemoryFiles {
    ghost use Rattle.wire_ports.specs.MemoryFiles.{left_in};

    pub(crate) fn new(files: Vec<NamedBytes>) -> MemoryFiles
        ensures files { result.files.items ≡ files.items }
        ensures left { left_in result ≡ [] }
        ensures at { result.at ≡ 0 }
    {
        let place = files.len();
        MemoryFiles {
            files,
            place,
            at: 0,
        }
    }

    // Goes to the first byte of the first file with this name, and tells whether there is one.
    // Where there is none, no file is read.
    pub(crate) fn open(&mut self, name: &str) -> bool
        ensures known { result ≡ is_some (map.get (names_of self.old.files.items) name.now) }
        ensures files { self.new.files.items ≡ self.old.files.items }
        ensures left { left_in self.new ≡ bytes_under (names_of self.old.files.items) name.now }
        ensures at { self.new.at ≡ 0 }
    {
        self.place = place_of(&self.files, name);
        self.at = 0;
        self.place < self.files.len()
    }

    // No file is read.
    pub(crate) fn close(&mut self)
        ensures left { left_in self.new ≡ [] }
        ensures files { self.new.files.items ≡ self.old.files.items }
        ensures at { self.new.at ≡ 0 }
    {
        self.place = self.files.len();
        self.at = 0;
    }

    // Reads the next bytes into the front of `into`, at most `most`, and tells how many.
    pub(crate) fn read(&mut self, most: usize, into: &mut [u8]) -> usize
        ensures count { result ≡ min most (min (length into.old) (length (left_in self.old))) }
        ensures bytes { take result into.new ≡ take result (left_in self.old) }
        ensures left { left_in self.new ≡ drop result (left_in self.old) }
        ensures files { self.new.files.items ≡ self.old.files.items }
        ensures at { self.new.at ≡ self.old.at + result }
    {
        if self.place >= self.files.len() {
            return 0;
        }
        let n = copy_from(&self.files[self.place], self.at, most, into);
        self.at += n;
        n
    }
}

// Where the name stands first, or the number of files.
fn place_of(files: &[NamedBytes], name: &str) -> usize
    ensures { result ≡ first_place name.now files.now }
{
    for i in 0..files.len() {
        if has_name(&files[i], name) {
            return i;
        }
    }
    files.len()
}

fn has_name(file: &NamedBytes, name: &str) -> bool
    ensures { result ≡ bytes_eq name.now file.now.0 }
{
    name == file.name.as_str()
}

// Copies the bytes from a place on, at most `most` and as many as there is room for.
fn copy_from(file: &NamedBytes, at: usize, most: usize, into: &mut [u8]) -> usize
    ensures bytes { take result into.new ≡ take result (drop at file.now.1) }
    ensures count { result ≡ min most (min (length into.old) (length file.now.1 - at)) }
    ensures fits { at + result < 2 ^ 64 }
{
    if at >= file.bytes.len() {
        return 0;
    }
    let (_, rest) = file.bytes.split_at(at);
    let n = rest.len().min(into.len()).min(most);
    let (front, _) = rest.split_at(n);
    into[..n].copy_from_slice(front);
    n
}
