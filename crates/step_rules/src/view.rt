//! What a seat knows of the shared object. No value of these types is made: they are what the logic
//! keeps for each seat, and each atomic step of a seat says what becomes of its own.
use crate::plan::Plan;
use seat_history::{Call, Entry, Reply};
use std::collections::LinkedList;

/// A call that was answered, and where it stands in the history.
pub struct Stand {
    /// The caller's number.
    pub by: u32,
    /// How many entries of the history come before it.
    pub place: u64,
    pub call: Call,
    pub reply: Reply,
    /// Whether it is the entry at its place.
    pub changes: bool,
    /// How many nodes the seat had, its own and the retired ones, when the call was made.
    pub stock: u64,
    /// The numbers that the seat held then.
    pub numbers: LinkedList<u32>,
}

/// A node and its words.
pub struct Held {
    pub node: u32,
    pub words: LinkedList<u64>,
}

/// What the seat's last look at a cell found there.
pub struct Look {
    pub cell: u32,
    /// The backup word.
    pub word: u64,
    /// How long the history was.
    pub at: u64,
}

/// A kind of atomic step, and the numbers that its call was given.
pub enum Kind {
    NodeStore { node: u32, j: u32, word: u64 },
    NodeLoad { node: u32, j: u32 },
    BackupLoad { cell: u32 },
    BackupExchange { cell: u32, seen: u64, node: u32 },
    ClaimStore { claim: u32, node: u32 },
    Recheck { claim: u32, cell: u32, seen: u64 },
    ClaimClear { claim: u32 },
    ScanLoad { word: u32 },
    VersionLoad { cell: u32 },
    InlineLoad { cell: u32, j: u32 },
    VersionAgain { cell: u32 },
    VersionLock { cell: u32, version: u64 },
    InlineStore { cell: u32, j: u32, word: u64 },
    VersionRelease { cell: u32, version: u64 },
    MarkClear { cell: u32, node: u32 },
}

/// An atomic step that is counted.
pub struct Counted {
    pub kind: Kind,
    /// The word that was found, or stored.
    pub found: u64,
    /// How much of the history the seat had seen after it.
    pub seen: u64,
    /// Of a scan load: whether a claim of the seat stood in the word.
    pub stood: bool,
}

/// A claim word of the seat's least number.
pub struct Claim {
    /// 0, or a node's number and 1.
    pub word: u64,
    pub stands: bool,
    /// The words of the node.
    pub image: LinkedList<u64>,
    pub cell: u32,
    /// The chain that the node headed when the claim began to stand.
    pub pages: LinkedList<Held>,
    /// How long the history was then.
    pub at: u64,
}

/// A scan in flight.
pub struct Scan {
    /// The next claim word.
    pub next: u64,
    /// The nodes that were retired when it began.
    pub old: LinkedList<u32>,
    /// The nodes that the words before name.
    pub found: LinkedList<u32>,
}

/// The last version load of a seat, and what it read since. An odd version is no read.
pub struct Reader {
    pub cell: u32,
    pub version: u64,
    /// The inline words that were read.
    pub words: LinkedList<u64>,
    /// Whether all words were read and then the backup was found unmarked.
    pub unmarked: bool,
    /// How long the history was then.
    pub at: u64,
}

/// How far a change is after its exchange. At the next store or clear of Own it is in flight no more.
pub enum Stage {
    Grounded,
    Waiting,
    Locked,
    Released,
}

/// A change in flight, from its exchange on.
pub struct Writer {
    pub stage: Stage,
    pub cell: u32,
    pub node: u32,
    /// Which entry of the history it is.
    pub change: u64,
    /// The counted steps before the exchange.
    pub before: LinkedList<Counted>,
    /// The version that it locked.
    pub version: u64,
    /// How many inline words were stored since.
    pub stores: u64,
}

/// All that a seat knows.
pub struct View {
    pub plan: Plan,
    /// The callers' numbers that it holds, the least first.
    pub numbers: LinkedList<u32>,
    /// The history, as far as it was seen.
    pub seen: LinkedList<Entry>,
    /// At its last join, the shorter of the two parts of the history that the seats had seen.
    pub earlier: LinkedList<Entry>,
    pub stands: LinkedList<Stand>,
    /// The counted steps.
    pub trail: LinkedList<Counted>,
    /// The length of the trail after the last step that added a stand.
    pub since: u64,
    /// The nodes that are its own, free or held, and their words.
    pub own: LinkedList<Held>,
    pub retired: LinkedList<u32>,
    pub look: Option<Look>,
    /// How many changes are left.
    pub changes: u64,
    /// How many removes are left.
    pub removes: u64,
    /// Back, Walk, Own and Hold.
    pub claims: LinkedList<Claim>,
    pub scan: Scan,
    pub reader: Reader,
    pub writer: Writer,
}
