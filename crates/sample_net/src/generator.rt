ghost use Rattle.std.specs.Prelude.{◌≡◌, ◌≤◌, ◌+◌, ◌-◌, ◌*◌, ◌/◌, IfOk, OnOk, length};
ghost use Rattle.plan_terms.specs.Terms.{AreDemands, IsNetwork, IsSurvivable};
ghost use Rattle.sample_net.{specs.Draws.nth_number, specs.Samples.{chord_count, demands_between, no_notes, sample_demands, sample_links, sample_nodes, sample_pairs, with_single_failures}, specs.Texts.HasWritableNotes};

use crate::demands::demands_between;
use crate::draws::Draws;
use crate::ends::{all_pairs, link_ends};
use crate::links::links_between;
use crate::names::numbered;
use net_core::{Demands, Link, List, Name, Network, NoMemory, Notes, Places};
use std::alloc::Global;

/// The nodes n0, n1 and so on.
fn nodes(alloc: Global, n: u32) -> Result<List<Name>, NoMemory>
    ensures { IfOk result (λ nodes. nodes ≡ sample_nodes n) }
{
    let mut nodes = List::new(alloc);
    for i in 0..n {
        nodes.push(numbered(alloc, b'n', i)?)?;
    }
    Ok(nodes)
}

/// The network of parts that are known to be one, with three places and without notes.
fn checked(nodes: List<Name>, links: List<Link>) -> Network
    requires { IsNetwork nodes links }
    ensures parts { (result.nodes ≡ nodes) × (result.links ≡ links) × (result.notes ≡ no_notes) }
    ensures places { result.places ≡ Places.Three }
{
    let notes = Notes {
        fixed_cost: false,
        routing_cost: false,
        setup_cost: false,
    };
    match Network::check(nodes, links, notes, Places::Three) {
        Ok(net) => net,
        Err(_) => unreachable!(),
    }
}

/// The links of the ring and the chords.
fn links(alloc: Global, n: u32, draws: &mut Draws) -> Result<List<Link>, NoMemory>
    requires { (4 ≤ n) × (n ≤ 40) }
    ensures links { IfOk result (λ links. links ≡ sample_links draws.old.number n) }
    ensures draws { OnOk result (draws.new.number ≡ nth_number draws.old.number (chord_count n + 2 * (n + chord_count n))) }
{
    let ends = link_ends(alloc, n, draws)?;
    links_between(alloc, ends.items(), draws)
}

/// The demands of all pairs.
fn demands(alloc: Global, n: u32, draws: &mut Draws) -> Result<Demands, NoMemory>
    requires { n ≤ 40 }
    ensures { IfOk result (λ demands. demands ≡ demands_between draws.old.number (sample_pairs n)) }
{
    let pairs = all_pairs(alloc, n)?;
    demands_between(alloc, pairs.items(), draws)
}

/// The sample network of a seed with `n` nodes, and its demands: a ring with a chord from each even node, two kinds of modules on
/// each link, and a demand between any two nodes. It has three places: all numbers are in thousandths. A seed and a size always give
/// the same network. It takes time and memory in the number of pairs of nodes.
///
/// ```text
/// let (net, demands) = sample(alloc, 7, 8)?;     // 8 nodes, 12 links and 28 demands
/// net.links().items()[8];                        // l8 from n0 to n5: 155.000 for 76.000, 622.000 for 243.000
/// demands.items()[0];                            // d0 from n0 to n1, which needs 14.000
/// ```
pub fn sample(alloc: Global, seed: u64, n: u32) -> Result<(Network, Demands), NoMemory>
    requires { (4 ≤ n) × (n ≤ 40) }
    ensures nodes { IfOk result (λ made. made.0.nodes ≡ sample_nodes n) }
    ensures links { IfOk result (λ made. made.0.links ≡ sample_links seed n) }
    ensures notes { IfOk result (λ made. made.0.notes ≡ no_notes) }
    ensures places { IfOk result (λ made. made.0.places ≡ Places.Three) }
    ensures demands { IfOk result (λ made. made.1 ≡ sample_demands seed n) }
    ensures writable { IfOk result (λ made. HasWritableNotes made.0) }
    ensures belong { IfOk result (λ made. AreDemands n made.1) }
    ensures survivable { IfOk result (λ made. IsSurvivable (with_single_failures made.0.nodes made.0.links made.1)) }
    ensures counts { IfOk result (λ made. (length made.0.nodes ≡ n) × (length made.0.links ≡ n + (n + 1) / 2) × (length made.1 ≡ n * (n - 1) / 2)) }
{
    let mut draws = Draws::new(seed);
    let nodes = nodes(alloc, n)?;
    let links = links(alloc, n, &mut draws)?;
    let demands = demands(alloc, n, &mut draws)?;
    Ok((checked(nodes, links), demands))
}
