ghost use Rattle.std.{specs.Prelude.{◌≡◌, ◌+◌, ◌<◌, ◌==◌, All, IfOk, [], ◌∷◌, cond, length, map, replicate}, specs.Cmp.Lexicographic.pointwise};
ghost use Rattle.plan_terms.specs.Terms.{graph, graph_of, AreOpening};
ghost use Rattle.metric_cut.{specs.Cuts.{IsCutOf, MayKeepCut}, specs.inner.KeptCuts.{MayKeepPrices, each_cut_once}};

use crate::cut::Cut;
use module_prices::price_lengths;
use net_core::{List, Network, NoMemory, StateId, States, Surviving};
use std::alloc::Global;

/// What a state keeps of lengths of 1.
fn unit_cut(alloc: Global, graph: &Surviving) -> Result<Option<Cut>, NoMemory>
    ensures { let g = graph_of graph.now in IfOk result (MayKeepCut g (replicate (length g.links) 1)) }
{
    let units = List::filled(alloc, 1, graph.net.links().len())?;
    Cut::in_graph(alloc, graph, units)
}

/// What a state keeps of the price lengths.
fn price_cut(alloc: Global, graph: &Surviving) -> Result<Option<Cut>, NoMemory>
    ensures { IfOk result (MayKeepPrices (graph_of graph.now)) }
{
    let prices = price_lengths(alloc, graph.net)?;
    Cut::in_graph(alloc, graph, prices)
}

fn one(alloc: Global, cut: Cut) -> Result<List<Cut>, NoMemory>
    ensures { IfOk result (λ cuts. cuts ≡ cut ∷ []) }
{
    let mut cuts = List::new(alloc);
    cuts.push(cut)?;
    Ok(cuts)
}

/// Two cuts, or the first one where their lengths are equal.
fn both(alloc: Global, unit: Cut, price: Cut) -> Result<List<Cut>, NoMemory>
    ensures { IfOk result (λ cuts. cuts ≡ cond (pointwise ◌==◌ unit.lengths price.lengths) (unit ∷ []) (unit ∷ price ∷ [])) }
{
    if unit.lengths().items() == price.lengths().items() {
        return one(alloc, unit);
    }
    let mut cuts = one(alloc, unit)?;
    cuts.push(price)?;
    Ok(cuts)
}

/// The cuts that are there, each once.
fn each_once(alloc: Global, unit: Option<Cut>, price: Option<Cut>) -> Result<List<Cut>, NoMemory>
    ensures { IfOk result (λ cuts. cuts ≡ each_cut_once unit price) }
{
    match unit {
        Some(unit) => match price {
            Some(price) => both(alloc, unit, price),
            None => one(alloc, unit),
        },
        None => match price {
            Some(price) => one(alloc, price),
            None => Ok(List::new(alloc)),
        },
    }
}

/// The opening cuts of a state, with which a planning begins: what the state keeps of lengths of 1, then what it keeps of the
/// price lengths. One that is 0 on all surviving links, or equals the other, is left out. It takes two searches from each node.
///
/// A triangle whose links have one price has the one opening cut 1, 1, 1 without failures, and 1, 1, 0 in a state that fails the
/// third link. Where a unit of capacity costs half as much on the first link, the second cut is 1, 2, 2.
/// It takes memory for two cuts.
pub fn opening(
    alloc: Global,
    net: &Network,
    states: &States,
    state: StateId,
) -> Result<List<Cut>, NoMemory>
    requires { state.0 < length states.now.listed + 1 }
    ensures each { IfOk result (All (IsCutOf (graph net.now states.now state.0))) }
    ensures opening { IfOk result (λ cuts. AreOpening (graph net.now states.now state.0) (map (λ c. c.lengths) cuts)) }
{
    let graph = Surviving { net, states, state };
    let unit = unit_cut(alloc, &graph)?;
    let price = price_cut(alloc, &graph)?;
    each_once(alloc, unit, price)
}
