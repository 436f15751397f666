use checked_fraction::cmp;
use std::cmp::Ordering;

/// What runs between two parts of the nodes: how many surviving links, the sum of their numbers over the scale, and what the demands
/// between the parts need, in units of the network.
#[derive(Clone, Copy)]
pub(crate) struct Crossing {
    pub(crate) links: u32,
    pub(crate) capacity: u128,
    pub(crate) demand: u64,
}

/// Nothing runs between two parts.
pub(crate) const NOTHING: Crossing = Crossing {
    links: 0,
    capacity: 0,
    demand: 0,
};

impl Crossing {
    /// Both together. The numbers of one network stay far below the widths, so that none is cut off.
    pub(crate) fn plus(&self, other: &Crossing) -> Crossing {
        Crossing {
            links: self.links.saturating_add(other.links),
            capacity: self.capacity.saturating_add(other.capacity),
            demand: self.demand.saturating_add(other.demand),
        }
    }

    /// What is left without a part of it.
    pub(crate) fn minus(&self, part: &Crossing) -> Crossing {
        Crossing {
            links: self.links.saturating_sub(part.links),
            capacity: self.capacity.saturating_sub(part.capacity),
            demand: self.demand.saturating_sub(part.demand),
        }
    }

    /// Whether the capacity is less than the demand over a scale.
    pub(crate) fn is_short(&self, scale: u64) -> bool {
        self.capacity < self.demand as u128 * scale as u128
    }

    /// Whether there is less capacity for each unit of demand than in another. Without demand there is more than in any other.
    pub(crate) fn is_deeper(&self, other: &Crossing) -> bool {
        if self.demand == 0 || other.demand == 0 {
            return self.demand > other.demand;
        }
        let order = cmp(
            self.capacity,
            self.demand as u128,
            other.capacity,
            other.demand as u128,
        );
        order == Ordering::Less
    }
}
