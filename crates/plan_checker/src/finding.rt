use net_core::{LinkId, StateId};

/// What is wrong with a plan or a report. Costs, bounds and right sides are in units of the network. The findings are in the order in
/// which they are tested.
#[derive(Clone, Copy, PartialEq, Eq)]
pub enum Finding {
    /// The notes aren't the network's.
    NotesDiffer,
    /// The entry at this position, from 1, has another reply, or another index than the next.
    EntryDiffers(u64),
    /// The number of lines of the pool, and of cuts in the journal.
    PoolCount(u32, u32),
    /// The state doesn't keep the lengths of this line of the pool, or an earlier line is the same cut.
    BadCut(u32),
    /// This line of the pool, its right side, and that at the last demands.
    PoolDiffers(u32, u128, u128),
    /// The version, and the number of edits that had been accepted.
    VersionDiffers(u64, u64),
    /// The demands aren't those at the plan's position.
    DemandsDiffer,
    /// The demand isn't there, or has no need, or the state joins its ends.
    Survivable,
    /// The flow at this place of the state follows no path of its demand.
    BadPath(StateId, u32),
    /// The flows of the demand at this place don't sum to its need.
    NotCarried(StateId, u32),
    /// The flows over the link are more than its capacity.
    Overloaded(StateId, LinkId),
    /// The plan's cost, and what its counts cost with the setups.
    CostDiffers(u128, u128),
    /// This line of the certificate isn't in the pool, which has room, or its state doesn't keep its lengths.
    LocalCut(u32),
    /// This line of the certificate, its right side, and that at the plan's demands.
    RightDiffers(u32, u128, u128),
    /// The price of the module at this place of the link is more than its cost.
    PriceExceeded(LinkId, u32),
    /// A sum of the certificate is 2^126 or more.
    CertificateWide,
    /// The raw value isn't that of the certificate in lowest terms.
    RawDiffers,
    /// The plan's bound, and what the raw value rounds up to.
    BoundDiffers(u128, u128),
    /// The share doesn't cost the raw value, or doesn't carry the demands in a state.
    NotTight,
}

/// The result of a check.
#[derive(Clone, Copy)]
pub enum CheckAnswer {
    /// There is no finding.
    Accepted,
    /// The first finding, on the outcome of this number, from 1; 0 where it concerns the whole report or a plan by itself.
    Rejected { outcome: u32, finding: Finding },
    /// The check ran out of memory.
    NoMemory,
}
