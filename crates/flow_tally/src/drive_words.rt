ghost use Rattle.std.specs.Prelude.{◌≤◌};

/// What the words of a drive ask for.
#[derive(Debug, Drop)]
pub struct DriveWords {
    pub buckets: u32,
    /// How many nodes each seat has.
    pub share: u32,
    /// The name of the script's file.
    pub file: String,
    ghost some_buckets: { 1 ≤ buckets },
    ghost few_buckets: { buckets ≤ 65536 },
    ghost some_share: { 1 ≤ share },
    ghost few_share: { share ≤ 65536 },
}
