//! The limits of networks, demands, reports and searches. Definitions and messages take them from here, too.

/// Most bytes of a name.
pub const NAME_BYTES: usize = 255;

/// Most nodes of a network.
pub const MOST_NODES: usize = 128;

/// Most links of a network.
pub const MOST_LINKS: usize = 256;

/// Most demands of a network.
pub const MOST_DEMANDS: usize = 2048;

/// Most kinds of module of a link.
pub const MOST_MODULES: usize = 16;

/// Most failures of a list.
pub const MOST_FAILURES: usize = 256;

/// Most entries of a journal of edits.
pub const MOST_ENTRIES: usize = 65_536;

/// Most cuts of a pool.
pub const MOST_CUTS: usize = 4096;

/// Most flows of a routing, and of a file of flows.
pub const MOST_FLOWS: usize = 65_536;

/// Most splits that a branch tree may be given.
pub const MOST_SPLITS: u32 = 9999;

/// What amounts stay below: capacities, costs and needs, in thousandths or millionths.
pub const TOO_LARGE: u64 = 1 << 40;

/// What all needs together stay below, in thousandths or millionths.
pub const TOO_MUCH: u64 = 1 << 44;
