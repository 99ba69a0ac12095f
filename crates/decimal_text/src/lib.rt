//! Decimal numbers in text: reading and writing them, and cutting text at a byte.
#![tactic(auto)]

mod parse;
mod parts;
#[cfg(test)]
mod tests;
mod writer;

pub use parse::{parse_decimal, parse_digits};
pub use parts::cut_at;
pub use writer::{TextWriter, decimal_len};
