/// What a datagram says of its place among the flows of its engine.
#[derive(Clone, Copy, Debug, PartialEq, Eq)]
pub struct SeqMark {
    pub engine_type: u8,
    pub engine_id: u8,
    /// How many flows the engine has sent before the datagram, modulo 2^32.
    pub sequence: u32,
    /// How many flows the datagram has.
    pub count: u32,
}
