ghost use Rattle.std.specs.Prelude.{◌≤◌};

/// The most datagrams that it makes.
pub(crate) const MOST_DATAGRAMS: u32 = 65_536;

/// What the generator of a trial is to make.
#[derive(Debug, Drop)]
pub struct Generator {
    /// The number that it starts from.
    pub start: u64,
    /// How many it makes.
    pub datagrams: u32,
    ghost few_datagrams: { datagrams ≤ 65536 },
}
