ghost use Rattle.std.specs.Prelude.{◌≡◌, ◌≢◌, ◌+◌, ◌-◌, ◌*◌, ◌/◌, ◌<◌, ◌≤◌, ◌^◌, All, IfSome, length};
ghost use Rattle.short_paths.{specs.declared.distance_table.TheConstants.APART, specs.inner.Pairs.{narrowed, pair_count, pair_place}, specs.inner.Tables.answer_of};

use net_core::{Copied, List, NoMemory, NodeId};

/// The number of two nodes that no path joins.
pub const APART: u64 = u64::MAX;

/// The distance of each two nodes, the same either way round, in the unit of the lengths. It takes 8 bytes for each pair of nodes:
/// 65 KB for 128 nodes.
#[derive(Drop)]
pub struct DistanceTable {
    nodes: u32,
    pairs: List<u64>,
    pub ghost few: { nodes ≤ 128 },
    pub ghost size: { length pairs ≡ pair_count nodes },
    pub ghost low: { All (λ d. d ≢ APART → d < 2 ^ 39) pairs },
}

/// How many pairs the nodes have.
pub(crate) fn pair_count(nodes: u32) -> usize
    requires { nodes ≤ 128 }
    ensures { result ≡ pair_count nodes }
{
    (nodes * nodes.saturating_sub(1) / 2) as usize
}

/// The place of the number of two nodes.
fn pair_place(low: u32, high: u32) -> usize
    requires order { low < high }
    requires few { high < 128 }
    ensures { result ≡ pair_place low high }
{
    pair_count(high) + low as usize
}

/// The number of a search as the table keeps it.
pub(crate) fn narrowed(found: u128) -> u64
    ensures { result ≡ narrowed found }
{
    found.min(u64::MAX as u128) as u64
}

/// The distance that a number of the table means, if it means one.
fn answer(number: u64) -> Option<u64>
    ensures { result ≡ answer_of APART number }
{
    if number == APART { None } else { Some(number) }
}

impl DistanceTable {
    ghost use Rattle.short_paths.specs.DistanceTables.{distance_at};

    /// The table of these numbers, which are sorted by the pair's higher node, then by its lower one.
    pub(crate) fn of_pairs(nodes: u32, pairs: List<u64>) -> DistanceTable
        requires few { nodes ≤ 128 }
        requires size { length pairs ≡ pair_count nodes }
        requires low { All (λ d. d ≢ APART → d < 2 ^ 39) pairs }
        ensures nodes { result.nodes ≡ nodes }
        ensures pairs { result.pairs ≡ pairs }
    {
        DistanceTable { nodes, pairs }
    }

    /// How many nodes there are, at most 128. It takes constant time.
    pub fn nodes(&self) -> u32
        ensures { result ≡ self.now.nodes }
    {
        self.nodes
    }

    /// The least length over all paths between two nodes: 0 from a node to itself, and `None` if no path joins them. It takes the
    /// same time for any two nodes, and no memory.
    pub fn get(&self, a: NodeId, b: NodeId) -> Option<u64>
        requires first { a.0 < self.now.nodes }
        requires second { b.0 < self.now.nodes }
        ensures distance { result ≡ distance_at self.now a.0 b.0 }
        ensures low { IfSome result (λ d. d < 2 ^ 39) }
    {
        if a == b {
            return Some(0);
        }
        let place = pair_place(a.0.min(b.0), a.0.max(b.0));
        answer(self.pairs.items()[place])
    }
}

impl Copied for DistanceTable {
    fn copy(&self) -> Result<DistanceTable, NoMemory> {
        Ok(DistanceTable {
            nodes: self.nodes,
            pairs: self.pairs.copy()?,
        })
    }
}
