use metric_cut::Cut;
use net_core::{Edit, Reply};

/// What a board answers to an edit. An edit that wasn't committed comes back. Memory runs out only where something would be committed, so
/// that each other answer comes exactly where its cause holds.
#[derive(Drop)]
pub enum EditAnswer {
    /// It is at this position of the history, with its reply; positions count from 1.
    At { position: u64, reply: Reply },
    /// The history has 65,536 entries.
    Full(Edit),
    /// The call ran out of memory.
    NoMemory(Edit),
}

/// What a board answers to a cut. A cut that wasn't admitted comes back. Memory runs out only where a cut would be committed, as with edits.
#[derive(Drop)]
pub enum AdmitAnswer {
    /// It has this index in the pool, and its entry is at this position of the history; positions count from 1.
    Admitted { index: u32, position: u64 },
    /// The pool has this cut already, at this index.
    Known(u32, Cut),
    /// The pool has 4,096 cuts.
    PoolFull(Cut),
    /// The history has 65,536 entries.
    Full(Cut),
    /// The call ran out of memory.
    NoMemory(Cut),
}
