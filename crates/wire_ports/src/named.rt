use std::marker::Model;

/// A file in memory: its name and its bytes. Contracts see it as the pair of the two lists.
#[derive(Drop)]
pub struct NamedBytes {
    pub name: String,
    pub bytes: Vec<u8>,
}

impl Model for NamedBytes {
    ghost use Rattle.std.specs.Prelude.{ℕ, List};
    ghost use Rattle.std.specs.String.{string_bytes};

    ghost Value = { List ℕ × List ℕ };

    ghost view = { λ f. (string_bytes f.name, f.bytes.items) };
}
