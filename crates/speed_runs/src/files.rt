//! The stream file of a run.
use crate::stream::{Stream, read_stream};
use std::rt::Files;
use std::{fs, io};

/// The numbers of the file, and none without one. Where it has none, a line says so.
pub(crate) fn read_file<R: Files + AllocGlobal + Print>(
    rt: &R,
    file: Option<&String>,
) -> io::Result<Option<Vec<u32>>> {
    let Some(file) = file else {
        return Ok(Some(Vec::new(rt.alloc())));
    };
    let Ok(bytes) = fs::read(rt, file.as_str()) else {
        println!(rt; "{file} can't be read")?;
        return Ok(None);
    };
    match read_stream(rt.alloc(), &bytes)? {
        Stream::Numbers(numbers) => return Ok(Some(numbers)),
        Stream::Empty => println!(rt; "{file} is empty")?,
        Stream::Ragged => println!(rt; "{file} has a length that is no multiple of 4")?,
    }
    Ok(None)
}
