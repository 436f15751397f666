use master_bound::Multiplier;
use net_core::List;

/// Which covers a table line ranges over.
#[derive(Clone, Copy, Debug, PartialEq, Eq)]
pub enum TableKind {
    /// All that the earlier line allows.
    Plain,
    /// Those that are left when a largest module that is used has failed, where its link can fail.
    Failing,
}

/// A line that is made of earlier ones, which it names by their indices. All counts that carry the demands meet it, since counts are whole.
#[derive(Drop)]
pub enum Line {
    /// The sum of earlier lines, each times its numerator: no coefficient above the right side, then all divided and rounded up.
    Divided {
        divisor: u128,
        terms: List<Multiplier>,
    },
    /// A weight for each kind of module of an earlier line, by how much the module gives there, the least first. The right side is the
    /// least weight of modules that meet the earlier line.
    Table {
        line: u32,
        kind: TableKind,
        weights: List<u32>,
    },
}
