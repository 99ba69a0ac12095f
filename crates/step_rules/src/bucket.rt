//! The bucket of a key.
ghost use Rattle.std.specs.Prelude.{◌≡◌, ◌<◌};
ghost use Rattle.seat_history.specs.Key.{key_number};
ghost use Rattle.step_rules.specs.History.{bucket_of};

use seat_history::KeyWords;

/// The bucket of a key, of so many.
pub fn bucket_index(buckets: u32, key: KeyWords) -> u32
    requires some { 0 < buckets }
    ensures index { result ≡ bucket_of buckets (key_number key) }
{
    let mixed = (key.k0 ^ key.k1.rotate_left(32)).wrapping_mul(0x9E37_79B9_7F4A_7C15);
    ((mixed >> 32) % u64::from(buckets)) as u32
}
