//! A program's words, and its line.
use crate::files::read_file;
use crate::runs::Outcome;
use std::rt::{Env, Files};
use std::time::Duration;
use std::{env, io};

/// What a program's words ask.
#[derive(Drop)]
pub struct Words<K, const N: usize> {
    /// Whether the time is wanted.
    pub timed: bool,
    pub numbers: [u32; N],
    pub kind: K,
    /// The numbers of the stream file; none without one.
    pub stream: Vec<u32>,
}

/// Reads `time` or nothing, N numbers, a kind of calls, and a stream file or nothing. Where the words
/// are others, or the file has no numbers, a line says so.
pub fn read_words<R, K, F, const N: usize>(
    rt: &R,
    usage: &str,
    read_kind: &F,
) -> io::Result<Option<Words<K, N>>>
where
    R: Env + Files + AllocGlobal + Print,
    K: Drop,
    F: Fn(&str) -> Option<K>,
    requires { F.IsAlwaysCallable read_kind.now }
{
    let mut all = Vec::new(rt.alloc());
    for word in env::args(rt)? {
        all.push(word)?;
    }
    let (timed, words) = split_time(&all);
    let (Some(numbers), Some(word)) = (read_numbers::<N>(words), words.get(N)) else {
        println!(rt; "{usage}")?;
        return Ok(None);
    };
    let Some(kind) = read_kind(word.as_str()) else {
        println!(rt; "{usage}")?;
        return Ok(None);
    };
    let Some(stream) = read_file(rt, words.get(N + 1))? else {
        return Ok(None);
    };
    Ok(Some(Words {
        timed,
        numbers,
        kind,
        stream,
    }))
}

// The words after the program's name, and after the word `time` where it is the first of them; and
// whether it is.
fn split_time(words: &[String]) -> (bool, &[String]) {
    let timed = words.len() > 1 && words[1].as_str() == "time";
    let first = if timed { 2 } else { 1 };
    (timed, words.get(first..).unwrap_or(&[]))
}

// The numbers that the first words spell, where a kind and maybe a file come after them.
fn read_numbers<const N: usize>(words: &[String]) -> Option<[u32; N]> {
    if words.len() < N || words.len() - N > 2 {
        return None;
    }
    let mut numbers = [0; N];
    for i in 0..N {
        let Ok(number) = words[i].parse::<u32>() else {
            return None;
        };
        numbers[i] = number;
    }
    Some(numbers)
}

/// The end of a run's line; its time stands in it where it is wanted.
pub fn print_counts<R: Print>(rt: &R, outcome: &Outcome, took: Option<Duration>) -> io::Result<()> {
    print!(rt; "calls {} ", outcome.calls)?;
    if let Some(took) = took {
        print!(rt; "microseconds {} ", took.as_micros())?;
    }
    println!(rt; "done {} changes {}", outcome.done, outcome.changes)
}
