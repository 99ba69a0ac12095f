use node_pool::NodeWords;

/// Copies of a chain's first records.
#[derive(Clone, Copy, Drop)]
pub struct Copied {
    /// The first node of the copies.
    pub head: u32,
    /// The node that the last copy goes on to: it is held, and not filled yet.
    pub last: u32,
    /// The words of the chain's node after those that are copied.
    pub words: NodeWords,
}
