/// How many words a record has.
pub const WIDTH: usize = 7;

/// How many words a value has. A record in a bucket is a key's two words and then its value's.
pub const VALUE_WIDTH: usize = WIDTH - 2;

/// The words of a register.
pub type Rec = [u64; WIDTH];

/// The words under a key.
pub type ValWords = [u64; VALUE_WIDTH];
