//! Checks the blocks of trimmed plans again, by plain arithmetic.
use net_core::{Counts, CutLine, Link, List, Network};
use trim_plan::{Block, Stop, Trimmed};

/// The capacity of a link with these counts and what is pre-installed, in units of the network.
fn capacity(link: &Link, counts: &[u64]) -> u128 {
    let modules = link.modules.items();
    let mut sum = link.fixed as u128;
    for m in 0..modules.len() {
        if m < counts.len() {
            sum = sum.saturating_add(
                (modules[m].capacity as u128).saturating_mul(counts[m] as u128),
            );
        }
    }
    sum
}

/// What the capacities of counts give along lengths: the sum of capacity times length over the links.
fn along(links: &[Link], counts: &[List<u64>], lengths: &[u32]) -> u128 {
    let mut sum = 0u128;
    for e in 0..links.len() {
        if e < counts.len() && e < lengths.len() {
            let given = capacity(&links[e], counts[e].items()).saturating_mul(lengths[e] as u128);
            sum = sum.saturating_add(given);
        }
    }
    sum
}

/// What one module of a link gives along lengths: its capacity times the length of the link.
fn module_along(links: &[Link], lengths: &[u32], e: usize, m: usize) -> u128 {
    if e >= links.len() || e >= lengths.len() || m >= links[e].modules.len() {
        return 0;
    }
    let module = links[e].modules.items()[m];
    (module.capacity as u128).saturating_mul(lengths[e] as u128)
}

/// Whether the counts violate a cut once they have one module less.
fn is_violated(links: &[Link], counts: &[List<u64>], block: &Block, cut: &CutLine) -> bool {
    let lengths = cut.lengths.items();
    let less = module_along(links, lengths, block.link.0 as usize, block.module as usize);
    let all = along(links, counts, lengths);
    less <= all && all - less < cut.right
}

/// Whether each block is a cut that the counts violate once they have one module less.
fn are_violated(links: &[Link], counts: &[List<u64>], blocks: &[Block]) -> bool {
    for block in blocks {
        let holds = match &block.why {
            Stop::Cut(cut) => is_violated(links, counts, block, cut),
            Stop::Wide(_) => false,
        };
        if !holds {
            return false;
        }
    }
    true
}

/// How many modules have a positive count.
fn modules_in_use(counts: &Counts) -> usize {
    let mut used = 0usize;
    for list in counts.items() {
        for n in list.items() {
            if *n > 0 {
                used = used.saturating_add(1);
            }
        }
    }
    used
}

/// Whether a trimmed plan has as many blocks as modules of positive count, each of them a cut that its counts violate once they have one
/// module less.
pub fn are_blocked(net: &Network, trimmed: &Trimmed) -> bool {
    let counts = &trimmed.plan.counts;
    modules_in_use(counts) == trimmed.blocks.len()
        && are_violated(net.links().items(), counts.items(), trimmed.blocks.items())
}
