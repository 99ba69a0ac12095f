use item_list::ItemList;

/// What is told of an engine: a part of an exporter that numbers its flows by itself.
#[derive(Clone, Copy, Debug, PartialEq, Eq)]
pub struct EngineLine {
    pub engine_type: u8,
    pub engine_id: u8,
    /// How many of its flows came.
    pub flows: u64,
    /// How many never came, by the gaps in its numbers.
    pub lost: u64,
    /// How often its numbers went back, as they do where it starts anew, and where a datagram comes
    /// late or twice.
    pub resets: u64,
}

/// The lines of engines, in a row.
pub type EngineList = ItemList<EngineLine>;
