ghost use Rattle.std.specs.Prelude.{◌≡◌, ◌≤◌, [], ◌∷◌, ◌++◌, decimal, length, IfOk, OnOk, OnErr};

use itoa::{Buffer, Integer};
use std::alloc::{AllocError, Global};
use std::marker::Model;

/// How many bytes a number has as text.
pub fn decimal_len(number: u64) -> usize
    ensures length { result ≡ length (decimal number) }
    ensures short { result ≤ 20 }
{
    match number.checked_ilog10() {
        Some(log) => log as usize + 1,
        None => 1,
    }
}

/// A text that grows at its end.
#[derive(Drop)]
pub struct TextWriter {
    text: Vec<u8>,
    digits: Buffer,
}

impl Model for TextWriter {
    ghost use Rattle.std.specs.Prelude.{List, ℕ};

    ghost Value = { List ℕ };

    ghost view = { λ writer. writer.text.items };
}

impl TextWriter {
    /// Nothing is written.
    pub fn new(alloc: Global) -> TextWriter
        ensures { result ≡ [] }
    {
        TextWriter {
            text: Vec::new(alloc),
            digits: Buffer::new(),
        }
    }

    /// Nothing is written, and so many bytes take no more memory.
    pub fn with_capacity(alloc: Global, room: usize) -> Result<TextWriter, AllocError>
        ensures { IfOk result (λ writer. writer ≡ []) }
    {
        Ok(TextWriter {
            text: Vec::with_capacity(alloc, room)?,
            digits: Buffer::new(),
        })
    }

    pub fn push_byte(&mut self, byte: u8) -> Result<(), AllocError>
        ensures ok { OnOk result (self.new ≡ self.old ++ byte ∷ []) }
        ensures err { OnErr result (self.new ≡ self.old) }
    {
        self.text.push(byte)?;
        Ok(())
    }

    pub fn push_bytes(&mut self, bytes: &[u8]) -> Result<(), AllocError>
        ensures ok { OnOk result (self.new ≡ self.old ++ bytes.now) }
        ensures err { OnErr result (self.new ≡ self.old) }
    {
        self.text.extend_from_slice(bytes)
    }

    /// Writes a number as `{}` does.
    pub fn push_number<N: Integer>(&mut self, number: N) -> Result<(), AllocError>
        ensures ok { OnOk result (self.new ≡ self.old ++ N.text number) }
        ensures err { OnErr result (self.new ≡ self.old) }
    {
        self.text
            .extend_from_slice(self.digits.format(number).as_bytes())
    }

    /// What was written.
    pub fn into_bytes(self) -> Vec<u8>
        ensures { result.items ≡ self }
    {
        self.text
    }
}
