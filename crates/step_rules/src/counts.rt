/// How many nodes of a closed object are free, in use by its cells, and retired.
#[derive(Clone, Copy, Debug, PartialEq, Eq)]
pub struct Counts {
    pub free: u32,
    pub live: u32,
    pub retired: u32,
}
