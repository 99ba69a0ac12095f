use crate::{
    Failed, Feed, FileFeed, MemoryFeed, MemorySink, NamedBytes, NoMemory, PutFailed, ReadEnd,
    StdSink, SteadyFeed, SteadySink, Window, pass_rest, put_all, read_whole,
};
use std::alloc::{AllocError, Global};
use std::fs;
use std::test::Fail;

const TEXT: &[u8] = b"10.0.0.1 10.0.0.2 1234 80 6 0 1 12 3400 1000 2000\n";

const LEN: usize = 50;

// Two files named `a`, of which the first counts, and an empty one named `b`.
fn files(alloc: Global) -> Result<Vec<NamedBytes>, AllocError> {
    let mut all = Vec::new(alloc);
    all.push(named(alloc, "a", TEXT)?)?;
    all.push(named(alloc, "a", b"later")?)?;
    all.push(named(alloc, "b", b"")?)?;
    Ok(all)
}

fn named(alloc: Global, name: &str, bytes: &[u8]) -> Result<NamedBytes, AllocError> {
    Ok(NamedBytes {
        name: String::from_str(alloc, name)?,
        bytes: Vec::from_slice(alloc, bytes)?,
    })
}

// What a start and a whole reading end with. `Other` is bytes that aren't the wanted ones.
#[derive(Debug, PartialEq, Eq, Clone, Copy)]
enum End {
    NotStarted,
    Whole,
    Other,
    Refused(ReadEnd),
}

fn read_named<F: Feed>(alloc: Global, feed: &mut F, name: &str, most: usize, want: &[u8]) -> End {
    if feed.start(1, name).is_err() {
        return End::NotStarted;
    }
    match read_whole(alloc, feed, most) {
        Ok(bytes) if bytes.as_slice() == want => End::Whole,
        Ok(_) => End::Other,
        Err(end) => End::Refused(end),
    }
}

fn read_in_pieces(
    alloc: Global,
    name: &str,
    piece: usize,
    failing: &[u32],
    most: usize,
) -> Result<End, AllocError> {
    let listed = Vec::from_slice(alloc, failing)?;
    let mut feed = MemoryFeed::new(files(alloc)?, listed, piece.max(1));
    let want = if name == "a" { TEXT } else { &[] };
    Ok(read_named(alloc, &mut feed, name, most, want))
}

#[test]
fn reads_whole_files_in_pieces(rt: HostRuntime) -> Result<(), Fail> {
    let alloc = rt.alloc();
    let large = End::Refused(ReadEnd::TooLarge);
    let failed = End::Refused(ReadEnd::Failed);
    for (piece, failing, most, want) in [
        (1, 0, LEN, End::Whole),
        (32, 0, LEN, End::Whole),
        (32, 0, usize::MAX, End::Whole),
        (1, 0, LEN - 1, large),
        (32, 0, LEN - 1, large),
        (32, 0, 0, large),
        (32, 1, LEN, End::NotStarted),
        (32, 3, LEN, failed),
        (32, 4, LEN, failed),
        (32, 5, LEN, End::Whole),
    ] {
        assert_eq!(rt;
            read_in_pieces(alloc, "a", piece, &[failing], most)?,
            want,
            "{piece} {failing} {most}"
        );
    }
    assert_eq!(rt; read_in_pieces(alloc, "b", 32, &[], 0)?, End::Whole);
    assert_eq!(rt; read_in_pieces(alloc, "c", 32, &[], LEN)?, End::NotStarted);
    Ok(())
}

// Whether two reads through the window and a third at the end give the text, of which the first
// bytes, at most `skipped`, are let go after the first read.
fn reads_through(
    feed: &mut MemoryFeed,
    window: &mut Window,
    skipped: usize,
) -> Result<bool, ReadEnd> {
    if feed.start(1, "a").is_err() {
        return Err(ReadEnd::Failed);
    }
    window.clear();
    let first = window.fill(feed, LEN)?;
    let gone = first.min(skipped);
    window.skip(gone);
    let second = window.fill(feed, LEN)?;
    let third = window.fill(feed, LEN)?;
    let all = first.checked_add(second) == Some(LEN) && third == 0;
    Ok(all && TEXT.ends_with(window.as_slice()) && window.as_slice().len() == LEN - gone.min(LEN))
}

#[test]
fn reads_through_a_window(rt: HostRuntime) -> Result<(), Fail> {
    let alloc = rt.alloc();
    let mut window = Window::new(alloc)?;
    let mut feed = MemoryFeed::new(files(alloc)?, Vec::new(alloc), 32);
    for skipped in [0, 20, 32] {
        assert_eq!(rt;
            reads_through(&mut feed, &mut window, skipped),
            Ok(true),
            "{skipped}"
        );
    }
    Ok(())
}

// What the rest of the file is, after one read.
fn pass(alloc: Global, failing: u32, most: usize) -> Result<Result<usize, ReadEnd>, NoMemory> {
    let mut feed = MemoryFeed::new(files(alloc)?, Vec::from_slice(alloc, &[failing])?, 16);
    let mut window = Window::new(alloc)?;
    if feed.start(1, "a").is_err() {
        return Ok(Err(ReadEnd::NoMemory));
    }
    Ok(match window.fill(&mut feed, LEN) {
        Ok(_) => pass_rest(&mut feed, &mut window, most),
        Err(end) => Err(end),
    })
}

#[test]
fn passes_the_rest_of_a_file(rt: HostRuntime) -> Result<(), Fail> {
    let alloc = rt.alloc();
    assert_eq!(rt; pass(alloc, 0, LEN - 16)?, Ok(LEN - 16));
    assert_eq!(rt; pass(alloc, 0, LEN - 17)?, Err(ReadEnd::TooLarge));
    assert_eq!(rt; pass(alloc, 5, LEN)?, Err(ReadEnd::Failed));
    Ok(())
}

// What is answered, and how many first bytes of the text were taken.
fn put_in_pieces(
    alloc: Global,
    failing: &[u32],
    room: usize,
) -> Result<(Result<(), PutFailed>, Option<usize>), NoMemory> {
    let listed = Vec::from_slice(alloc, failing)?;
    let mut sink = MemorySink::new(alloc, listed, 8, room)?;
    let put = put_all(&mut sink, TEXT);
    let taken = sink.as_slice();
    let is_front = TEXT.starts_with(taken);
    Ok((put, is_front.then_some(taken.len())))
}

#[test]
fn puts_all_in_pieces(rt: HostRuntime) -> Result<(), Fail> {
    let alloc = rt.alloc();
    for (failing, room, written) in [(2, LEN, 8), (1, LEN, 0), (0, 19, 19)] {
        let want = (Err(PutFailed { written }), Some(written));
        assert_eq!(rt;
            put_in_pieces(alloc, &[failing], room)?,
            want,
            "{failing} {room}"
        );
    }
    assert_eq!(rt; put_in_pieces(alloc, &[8], LEN)?, (Ok(()), Some(LEN)));
    Ok(())
}

#[test]
fn a_steady_feed_gives(rt: HostRuntime) -> Result<(), Fail> {
    let alloc = rt.alloc();
    let mut feed = SteadyFeed::new(files(alloc)?);
    assert_eq!(rt; read_named(alloc, &mut feed, "a", LEN, TEXT), End::Whole);
    assert_eq!(rt; read_named(alloc, &mut feed, "c", LEN, &[]), End::Whole);
    Ok(())
}

#[test]
fn a_steady_sink_takes(rt: HostRuntime) -> Result<(), Fail> {
    let mut sink = SteadySink::new(rt.alloc());
    sink.reserve(30)?;
    assert_eq!(rt; put_all(&mut sink, TEXT), Err(PutFailed { written: 30 }));
    sink.reserve(20)?;
    assert_eq!(rt; put_all(&mut sink, &TEXT[30..]), Ok(()));
    assert_eq!(rt; sink.as_slice(), TEXT);
    Ok(())
}

#[test]
fn a_real_file_is_written_and_read_back(rt: HostRuntime) -> Result<(), Fail> {
    let name = format!(in rt.alloc(); "/tmp/wire_ports_{}", std::process::id(rt.process()))?;
    let mut sink = StdSink::new(fs::create(&rt, name.as_str())?);
    let put = put_all(&mut sink, TEXT);
    drop(sink);
    let mut feed = FileFeed::new(&rt);
    let end = read_named(rt.alloc(), &mut feed, name.as_str(), LEN, TEXT);
    fs::remove_file(&rt, name.as_str())?;
    let gone = feed.start(2, name.as_str());
    assert_eq!(rt; (put, end, gone), (Ok(()), End::Whole, Err(Failed)));
    Ok(())
}
