ghost use Rattle.std.specs.Prelude.{◌≡◌, ℕ, ◌≤◌, ◌⊎◌, ◌<◌, ◌^◌, IfOk, IfErr, List as Seq, length, map};
ghost use Rattle.net_core.{specs.declared.demand.Demand.{Demand as D}, specs.Terms.{AreDemands, IsName, AreStates}};
ghost use Rattle.worked_networks.{specs.Tables.{AreSingles, RefusesNetwork, letters, row_of}, specs.Triangle.{triangle_link, triangle_links}};

use crate::demand_rows::{DemandRow, demands};
use crate::fault::WorkedFault;
use crate::link_rows::{TEN, checked, link, nodes_of};
use crate::names::name;
use crate::state_rows::single_failures;
use net_core::{Link, List, Network, NoMemory, Places, Problem};
use std::alloc::Global;

/// A link of the triangle.
fn side(alloc: Global, bytes: &[u8], a: u32, b: u32, fixed: u64) -> Result<Link, NoMemory>
    requires { IsName bytes.now }
    ensures { IfOk result (λ l. l ≡ triangle_link bytes.now a b fixed) }
{
    link(name(alloc, bytes)?, &(a, b, fixed, &TEN), alloc)
}

/// The links of the triangle.
fn sides(alloc: Global, fixed: u64) -> Result<List<Link>, NoMemory>
    ensures { IfOk result (λ links. links ≡ triangle_links fixed) }
{
    let mut links = List::new(alloc);
    links.push(side(alloc, b"AB", 0, 1, fixed)?)?;
    links.push(side(alloc, b"BC", 1, 2, fixed)?)?;
    links.push(side(alloc, b"AC", 0, 2, fixed)?)?;
    Ok(links)
}

/// The nodes A, B and C, and the links AB, BC and AC of modules of 10.00 for 5.00, each with the same pre-installed capacity in
/// thousandths, since it has three places. That of 2^40 or more is a fault of the links. It takes a fixed amount of time and memory.
pub fn triangle(alloc: Global, fixed: u64) -> Result<Network, WorkedFault>
    ensures nodes { IfOk result (λ net. length net.nodes ≡ 3) }
    ensures links { IfOk result (λ net. length net.links ≡ 3) }
    ensures places { IfOk result (λ net. net.places ≡ Places.Three) }
    ensures parts { IfOk result (λ net. (net.nodes ≡ letters 65 3) × (net.links ≡ triangle_links fixed)) }
    ensures refused { IfErr result (λ fault. (fault ≡ WorkedFault.NoMemory) ⊎ RefusesNetwork (letters 65 3) (triangle_links fixed) fault) }
{
    let nodes = nodes_of(alloc, 3)?;
    let links = sides(alloc, fixed)?;
    checked(nodes, links)
}

/// The network, the failure of each of its links alone, and up to 26 demands A, B and so on, one for each row, with needs in
/// thousandths. The network is dropped at an error.
///
/// It takes time in the squares of the links and of the rows, and memory in both.
pub fn problem(alloc: Global, net: Network, rows: &[DemandRow]) -> Result<Problem, WorkedFault>
    ensures net { IfOk result (λ p. p.net ≡ net) }
    ensures belong { IfOk result (λ p. AreStates (length p.net.links) p.states.listed) }
    ensures singles { IfOk result (λ p. AreSingles p.net.links p.states.listed) }
    ensures count { IfOk result (λ p. length p.demands ≡ length rows.now) }
    ensures demands { IfOk result (λ p. map row_of p.demands ≡ rows.now) }
    ensures refused { IfErr result (λ fault. (fault ≡ WorkedFault.NoMemory)
        ⊎ ((fault ≡ WorkedFault.TooMany) × (26 < length rows.now))
        ⊎ ((fault ≡ WorkedFault.Demands) × (demands : Seq D) × (map row_of demands ≡ rows.now) × (AreDemands (length net.nodes) demands → ⊥))) }
{
    let states = single_failures(alloc, &net)?;
    let demands = demands(alloc, net.nodes().len(), rows)?;
    Ok(Problem {
        net,
        states,
        demands,
    })
}
