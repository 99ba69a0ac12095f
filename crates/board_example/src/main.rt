//! Callers that publish readings on a board of registers, read one another's, and count.
#![tactic(auto)]

mod closing;
mod member;
mod reading;
mod session;

use big_atomic::WIDTH;
use session::{Asked, Outcome, run};
use std::{env, io};

const USAGE: &str = "board_example CALLERS REGISTERS ROUNDS SHARE";

// The words after the program's name: four numbers.
fn read_words(words: &[String]) -> Option<Asked> {
    if words.len() != 5 {
        return None;
    }
    let mut numbers = [0; 4];
    for i in 0..4 {
        let Ok(number) = words[i + 1].parse::<u32>() else {
            return None;
        };
        numbers[i] = number;
    }
    Asked::of(numbers)
}

fn main(rt: HostRuntime) -> io::Result<()> {
    let mut words = Vec::new(rt.alloc());
    for word in env::args(&rt)? {
        words.push(word)?;
    }
    let Some(asked) = read_words(&words) else {
        return println!(rt; "{USAGE}");
    };
    let Some(outcome) = run(&rt, rt.alloc(), &asked)? else {
        return println!(rt; "no room for the object");
    };
    let Outcome { closed, yes, torn } = outcome;
    for reg in 0..closed.plan().registers {
        let record = closed.register(reg);
        for word in &record[..WIDTH - 1] {
            print!(rt; "{word} ")?;
        }
        println!(rt; "{}", record[WIDTH - 1])?;
    }
    println!(rt; "yes {yes} torn {torn}")
}
