ghost use Rattle.std.specs.Prelude.{◌≡◌, ◌+◌, ◌*◌, ◌≤◌, ◌<◌, ◌^◌, ◌↔◌, None, Ok, IfOk, IsErrOf, length, sum_by};
ghost use Rattle.plan_terms.specs.Terms.{AreDemands, Graph, Joins, graph, graph_of, IsRight, AreZero, Keeps, IsDistance};
ghost use Rattle.metric_cut.{specs.Bounded.HaveBound, specs.Cuts.{IsCutOf, IsLineAt, MayKeepCut}, specs.inner.Rights.part_of};

use crate::kept_lengths::keep;
use net_core::{
    Copied, CutLine, Demand, Demands, Lengths, Network, NoMemory, NodeId, StateId, States,
    Surviving,
};
use short_paths::{DistanceTable, all_pairs_in};
use std::alloc::Global;

/// Lengths that a state keeps, one per link, with the distances along the links that survive in it. It doesn't hold the network: its calls
/// answer for whatever graph it is a cut of. For 128 nodes and 256 links it takes 66 KB.
#[derive(Drop)]
pub struct Cut {
    state: StateId,
    lengths: Lengths,
    table: DistanceTable,
}

/// Why lengths make no cut.
#[derive(Clone, Copy, PartialEq, Eq)]
pub enum CutFault {
    /// The state is not listed.
    UnknownState,
    /// No surviving link has a positive length.
    ZeroLengths,
    /// The call ran out of memory.
    NoMemory,
}

impl From<NoMemory> for CutFault {
    ghost use Rattle.std.specs.Prelude.{◌≡◌};
    ghost use Rattle.metric_cut.specs.declared.cut.CutFault.{CutFault};

    ghost from_gives = { λ _ fault. fault ≡ CutFault.NoMemory };

    fn from(_error: NoMemory) -> CutFault {
        CutFault::NoMemory
    }
}

/// A demand's need times the distance of its ends. Ends that are apart count 0.
fn part(table: &DistanceTable, d: &Demand) -> u128
    requires from { d.now.from.0 < table.now.nodes }
    requires to { d.now.to.0 < table.now.nodes }
    ensures value { result ≡ part_of table.now d.now }
    ensures low { result ≤ d.now.need * 2 ^ 39 }
{
    d.need as u128 * table.get(d.from, d.to).unwrap_or(0) as u128
}

/// The sum of all parts.
fn right_side(table: &DistanceTable, demands: &[Demand]) -> u128
    requires { AreDemands table.now.nodes demands.now }
    ensures value { result ≡ sum_by (part_of table.now) demands.now }
    ensures low { result ≤ sum_by (λ d. d.need) demands.now * 2 ^ 39 }
{
    let mut sum = 0;
    for d in demands {
        sum += part(table, d);
    }
    sum
}

impl Cut {
    /// The cut of what the state keeps of lengths, of which there is one per link: those of links that don't survive become 0, and the
    /// others are divided by their greatest common divisor. It takes a search from each node.
    ///
    /// In a state that fails the third link alone, the lengths 2, 4, 6 become 1, 2, 0. A state that fails the first two as well
    /// keeps nothing of them, so they make no cut there.
    /// It takes memory for the distances of all pairs of nodes, 8 bytes each; the lengths are taken over.
    pub fn new(
        alloc: Global,
        net: &Network,
        states: &States,
        state: StateId,
        lengths: Lengths,
    ) -> Result<Cut, CutFault>
        requires lengths { length lengths ≡ length net.now.links }
        ensures unknown { IsErrOf result CutFault.UnknownState ↔ (length states.now.listed < state.0) }
        ensures zero { IsErrOf result CutFault.ZeroLengths ↔ (state.0 ≤ length states.now.listed) × AreZero (graph net.now states.now state.0) lengths }
        ensures state { IfOk result (λ cut. cut.state ≡ state) }
        ensures keeps { IfOk result (λ cut. Keeps (graph net.now states.now state.0) lengths cut.lengths) }
        ensures cut { IfOk result (IsCutOf (graph net.now states.now state.0)) }
        ensures nodes { IfOk result (λ cut. cut.table.nodes ≡ length net.now.nodes) }
        ensures bound { IfOk result (λ cut. HaveBound net.now.links cut.lengths) }
    {
        if state.0 >= states.count() {
            return Err(CutFault::UnknownState);
        }
        let graph = Surviving { net, states, state };
        let found = Cut::in_graph(alloc, &graph, lengths)?;
        match found {
            Some(cut) => Ok(cut),
            None => Err(CutFault::ZeroLengths),
        }
    }

    /// `Cut::new` in a surviving graph; `None` exactly where no surviving link has a positive length.
    /// It takes the time and the memory of `Cut::new`.
    pub fn in_graph(
        alloc: Global,
        graph: &Surviving,
        lengths: Lengths,
    ) -> Result<Option<Cut>, NoMemory>
        requires lengths { length lengths ≡ length graph.now.net.now.links }
        ensures zero { AreZero (graph_of graph.now) lengths → result ≡ Ok None }
        ensures kept { IfOk result (MayKeepCut (graph_of graph.now) lengths) }
    {
        let mut kept = lengths;
        if !keep(graph, &mut kept) {
            return Ok(None);
        }
        let table = all_pairs_in(alloc, graph, &kept)?;
        Ok(Some(Cut {
            state: graph.state,
            lengths: kept,
            table,
        }))
    }

    /// The state. It takes constant time.
    pub fn state(&self) -> StateId
        ensures { result ≡ self.now.state }
    {
        self.state
    }

    /// The lengths, one per link. They are lent, in constant time.
    pub fn lengths(&self) -> &Lengths
        ensures { result.now ≡ self.now.lengths }
    {
        &self.lengths
    }

    /// The least length over all paths of surviving links, and `None` exactly where no path leads.
    /// It takes constant time.
    pub fn distance(&self, a: NodeId, b: NodeId) -> Option<u64>
        requires first { a.0 < self.now.table.nodes }
        requires second { b.0 < self.now.table.nodes }
        ensures { (g : Graph) → IsCutOf g self.now → IsDistance (Joins g) self.now.lengths a.0 b.0 result }
    {
        self.table.get(a, b)
    }

    /// What the cut asks for, in units of the network: the needs of demands of the cut's network, each times the distance of its ends.
    /// Demands whose ends are apart count 0. It takes time in the number of demands, and no memory.
    ///
    /// In the triangle with lengths of 1 a need of 12 from A to C gives 12, and 24 in the state that fails the link AC.
    pub fn right(&self, demands: &Demands) -> u128
        requires { AreDemands self.now.table.nodes demands.now }
        ensures right { (g : Graph) → IsCutOf g self.now → IsRight (Joins g) self.now.lengths demands.now result }
        ensures low { result < 2 ^ 84 }
    {
        right_side(&self.table, demands.items())
    }

    /// The cut with its right side at the demands, without its distances.
    ///
    /// In the triangle the unit cut of state `none` has the right side 12.00 for a demand of 12.00.
    /// It takes the time of `right`, and memory for a copy of the lengths.
    pub fn line(&self, demands: &Demands) -> Result<CutLine, NoMemory>
        requires { AreDemands self.now.table.nodes demands.now }
        ensures { IfOk result (IsLineAt demands.now self.now) }
    {
        Ok(CutLine {
            state: self.state,
            lengths: self.lengths.copy()?,
            right: self.right(demands),
        })
    }
}

impl Copied for Cut {
    fn copy(&self) -> Result<Cut, NoMemory> {
        Ok(Cut {
            state: self.state,
            lengths: self.lengths.copy()?,
            table: self.table.copy()?,
        })
    }
}
