ghost use Rattle.std.specs.Prelude.{◌≡◌, ◌∷◌, option_map};
ghost use Rattle.call_script.specs.Cut.{parts_at, parts_in, without_last_feed};

use decimal_text::cut_at;

/// The bytes before the first place of this byte, and those after it, where it has a place.
pub(crate) fn cut(bytes: &[u8], byte: u8) -> (&[u8], Option<&[u8]>)
    ensures { parts_at byte bytes.now ≡ result.0.now ∷ parts_in byte (option_map (λ rest. rest.now) result.1) }
{
    match cut_at(bytes, byte) {
        Some((front, back)) => (front, Some(back)),
        None => (bytes, None),
    }
}

/// The bytes without a line feed at their very end.
pub(crate) fn whole_lines(bytes: &[u8]) -> &[u8]
    ensures { result.now ≡ without_last_feed bytes.now }
{
    match bytes {
        [front @ .., b'\n'] => front,
        _ => bytes,
    }
}
