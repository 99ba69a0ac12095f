//! Stream files: 32-bit little-endian numbers, and what a thread draws of them.
ghost use Rattle.std.specs.Prelude.{◌≡◌, ◌++◌, IfOk};
ghost use Rattle.speed_runs.specs.Streams.{IsRead, drawn, numbers_in};

use std::alloc::{AllocError, Global};

/// What a stream file has.
#[derive(Drop)]
pub(crate) enum Stream {
    Numbers(Vec<u32>),
    Empty,
    /// Its length is no multiple of 4.
    Ragged,
}

/// Reads the bytes of a stream file.
pub(crate) fn read_stream(alloc: Global, bytes: &[u8]) -> Result<Stream, AllocError>
    ensures { IfOk result (λ stream. IsRead bytes.now stream) }
{
    if bytes.is_empty() {
        return Ok(Stream::Empty);
    }
    if bytes.len() % 4 != 0 {
        return Ok(Stream::Ragged);
    }
    Ok(Stream::Numbers(numbers_of(alloc, bytes)?))
}

// The numbers that the bytes spell, four bytes each.
fn numbers_of(alloc: Global, bytes: &[u8]) -> Result<Vec<u32>, AllocError>
    ensures { IfOk result (λ numbers. numbers.items ≡ numbers_in bytes.now) }
{
    let mut numbers = Vec::with_capacity(alloc, bytes.len() / 4)?;
    let mut rest = bytes;
    while let [a, b, c, d, later @ ..] = rest {
        numbers.push(u32::from_le_bytes([*a, *b, *c, *d]))?;
        rest = later;
    }
    Ok(numbers)
}

/// The number that a thread of so many calls draws. Of a stream, which goes round, each thread has its
/// own part; without numbers it is the sum of the two.
pub fn draw(numbers: &[u32], calls: u32, thread: u32, i: u32) -> u64
    ensures { result ≡ drawn numbers.now calls thread i }
{
    let count = numbers.len() as u64;
    if count == 0 {
        return u64::from(thread) + u64::from(i);
    }
    let place = u64::from(thread) * u64::from(calls) + u64::from(i);
    u64::from(numbers[(place % count) as usize])
}
