ghost use Rattle.std.specs.Prelude.{◌≡◌, ◌≤◌, map, MatchResult};
ghost use Rattle.std.specs.String.{string_bytes};
ghost use Rattle.flow_tally.specs.Input.{feed_shown, RefusesFiles};
ghost use Rattle.flow_tally.specs.Reading.{Reads, AddsFile, HasRead, status_of};
ghost use Rattle.flow_tally.specs.Words.{Files};

use crate::gathered::Gathered;
use crate::status::Status;
use netflow_five::{FileEnd, collect_file};
use std::alloc::Global;
use wire_ports::{Feed, ReadEnd, Window, read_whole};

/// The most bytes of all files together.
pub(crate) const MOST_BYTES: usize = 1 << 28;

/// The bytes of a file, of which there may be at most `most`.
pub(crate) fn read_file<F: Feed>(
    alloc: Global,
    feed: &mut F,
    file: u32,
    name: &str,
    most: usize,
) -> Result<Vec<u8>, Status>
    ensures read { Reads most (feed_shown F.files F.faults F.failed F.current F.started F.left F.given feed.old feed.new) name.now file result }
    ensures current { F.current feed.new ≡ file }
    ensures files { F.files feed.new ≡ F.files feed.old }
    ensures later { F.faults feed.old ≤ F.faults feed.new }
{
    if feed.start(file, name).is_err() {
        return Err(Status::OpenFault { file });
    }
    match read_whole(alloc, feed, most) {
        Ok(bytes) => Ok(bytes),
        Err(ReadEnd::Failed) => Err(Status::ReadFault { file }),
        Err(ReadEnd::TooLarge) => Err(Status::InputTooLarge { file }),
        Err(ReadEnd::NoMemory) => Err(Status::NoMemory),
    }
}

/// Why a file wasn't added, as a status.
fn refused_file(file: u32, end: FileEnd) -> Status
    ensures { result ≡ status_of file end }
{
    match end {
        FileEnd::Failed => Status::ReadFault { file },
        FileEnd::TooLarge => Status::InputTooLarge { file },
        FileEnd::Malformed { offset, cause } => Status::BadDatagram {
            file,
            offset,
            cause,
        },
        FileEnd::NoMemory => Status::NoMemory,
    }
}

/// Adds a file of at most `most` bytes to the tally while it is read, and tells how many bytes it has.
fn add_file<F: Feed>(
    feed: &mut F,
    window: &mut Window,
    gathered: &mut Gathered,
    file: u32,
    name: &str,
    most: usize,
) -> Result<usize, Status>
    ensures file { AddsFile most (feed_shown F.files F.faults F.failed F.current F.started F.left F.given feed.old feed.new) name.now file gathered.old gathered.new result }
    ensures current { F.current feed.new ≡ file }
    ensures files { F.files feed.new ≡ F.files feed.old }
    ensures later { F.faults feed.old ≤ F.faults feed.new }
{
    if feed.start(file, name).is_err() {
        return Err(Status::OpenFault { file });
    }
    match collect_file(feed, window, gathered, most) {
        Ok(n) => Ok(n),
        Err(end) => Err(refused_file(file, end)),
    }
}

/// Reads the files in order and gathers their datagrams.
pub fn read_files<F: Feed>(
    alloc: Global,
    feed: &mut F,
    files: &[String],
) -> Result<Gathered, Status>
    ensures read { MatchResult result (HasRead (feed_shown F.files F.faults F.failed F.current F.started F.left F.given feed.old feed.new) (Files (map string_bytes files.now)))
        (RefusesFiles (map string_bytes files.now) (feed_shown F.files F.faults F.failed F.current F.started F.left F.given feed.old feed.new)) }
    ensures files { F.files feed.new ≡ F.files feed.old }
    ensures later { F.faults feed.old ≤ F.faults feed.new }
{
    let Ok(mut window) = Window::new(alloc) else {
        return Err(Status::NoMemory);
    };
    let mut gathered = Gathered::new(alloc);
    let mut left = MOST_BYTES;
    let mut file: u32 = 0;
    for name in files {
        // There is no memory for so many words that their numbers end.
        file = match file.checked_add(1) {
            Some(next) => next,
            None => return Err(Status::NoMemory),
        };
        match add_file(feed, &mut window, &mut gathered, file, name.as_str(), left) {
            Ok(n) => left -= n,
            Err(status) => return Err(status),
        }
    }
    Ok(gathered)
}
