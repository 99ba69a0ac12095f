ghost use Rattle.std.specs.Prelude.{◌≡◌};
ghost use Rattle.seat_history.specs.Key.{key_number};

/// A key. Keys are ordered by `k0`, and then by `k1`.
#[derive(Clone, Copy, Debug, PartialEq, Eq)]
pub struct KeyWords {
    pub k0: u64,
    pub k1: u64,
}

impl KeyWords {
    /// The key as one number, which keeps the order.
    pub(crate) fn number(self) -> u128
        ensures { result ≡ key_number self }
    {
        u128::from(self.k0) * (1 << 64) + u128::from(self.k1)
    }

    /// The key with this number.
    pub(crate) fn of_number(number: u128) -> KeyWords
        ensures { key_number result ≡ number }
    {
        KeyWords {
            k0: (number >> 64) as u64,
            k1: (number % (1 << 64)) as u64,
        }
    }
}
