ghost use Rattle.std.specs.Prelude.{◌≡◌, ◌≤◌, ◌<◌, ◌+◌, ◌⊎◌, [], ◌∷◌, IfOk, IfErr, List as Seq, length, map};
ghost use Rattle.net_core.{specs.declared.states.Listed.{Listed as State}, specs.Terms.{AreStates, single_state}, specs.Limits.most_links};
ghost use Rattle.worked_networks.specs.Tables.{AreSingles, RefusesStates, failed_of};

use crate::fault::WorkedFault;
use crate::names::letter;
use net_core::{Copied, Link, LinkId, List, Listed, Network, NoMemory, States};
use std::alloc::Global;

/// The links of these places.
fn links_at(alloc: Global, places: &[u32]) -> Result<List<LinkId>, NoMemory>
    ensures { IfOk result (λ links. map (λ e. e.0) links ≡ places.now) }
{
    let mut links = List::new(alloc);
    for e in places {
        links.push(LinkId(*e))?;
    }
    Ok(links)
}

/// The listed states f, g and so on of the rows.
fn listed_of(alloc: Global, rows: &[&[u32]]) -> Result<List<Listed>, NoMemory>
    requires { length rows.now ≤ 20 }
    ensures { IfOk result (λ listed. map failed_of listed ≡ map (λ r. r.now) rows.now) }
{
    let mut listed = List::new(alloc);
    for i in 0..rows.len() {
        let name = letter(alloc, b'f', i)?;
        let links = links_at(alloc, rows[i])?;
        listed.push(Listed { name, links })?;
    }
    Ok(listed)
}

/// The states of a list.
fn checked(net: &Network, listed: List<Listed>) -> Result<States, WorkedFault>
    ensures listed { IfOk result (λ s. (s.listed ≡ listed) × AreStates (length net.now.links) s.listed) }
    ensures refused { IfErr result (RefusesStates (length net.now.links) listed) }
{
    match States::new(net, listed) {
        Ok(states) => Ok(states),
        Err(fault) => Err(WorkedFault::States(fault)),
    }
}

/// Up to 20 states f, g and so on, each of which fails the links of a row, by their places among the network's links. Where the rows
/// aren't states of the network, the answer is the fault that `States::new` finds.
///
/// It takes time in the square of the rows and in the links of all rows, and memory in the latter.
pub fn failing(alloc: Global, net: &Network, rows: &[&[u32]]) -> Result<States, WorkedFault>
    ensures belong { IfOk result (λ s. AreStates (length net.now.links) s.listed) }
    ensures count { IfOk result (λ s. length s.listed ≡ length rows.now) }
    ensures links { IfOk result (λ s. map failed_of s.listed ≡ map (λ r. r.now) rows.now) }
    ensures refused { IfErr result (λ fault. (fault ≡ WorkedFault.NoMemory)
        ⊎ ((fault ≡ WorkedFault.TooMany) × (20 < length rows.now))
        ⊎ ((listed : Seq State) × (map failed_of listed ≡ map (λ r. r.now) rows.now) × RefusesStates (length net.now.links) listed fault)) }
{
    if rows.len() > 20 {
        return Err(WorkedFault::TooMany);
    }
    let listed = listed_of(alloc, rows)?;
    checked(net, listed)
}

/// The state that fails a link alone, under its name.
fn single(alloc: Global, id: LinkId, link: &Link) -> Result<Listed, NoMemory>
    ensures { IfOk result (λ s. s ≡ single_state id.0 link.now.name) }
{
    Ok(Listed {
        name: link.name.copy()?,
        links: List::from_slice(alloc, &[id])?,
    })
}

/// The states that each fail one link, under its name.
fn singles(alloc: Global, links: &[Link]) -> Result<List<Listed>, NoMemory>
    requires { length links.now ≤ most_links }
    ensures { IfOk result (AreSingles links.now) }
{
    let mut listed = List::new(alloc);
    for e in 0..links.len() {
        listed.push(single(alloc, LinkId(e as u32), &links[e])?)?;
    }
    Ok(listed)
}

/// The states of a network in which each link fails alone: one for each link, in their order, under its name.
///
/// It takes time in the square of the links, and memory in the links.
///
/// In the triangle AB, BC, AC they are three states, AB, BC and AC.
pub fn single_failures(alloc: Global, net: &Network) -> Result<States, NoMemory>
    ensures belong { IfOk result (λ s. AreStates (length net.now.links) s.listed) }
    ensures singles { IfOk result (λ s. AreSingles net.now.links s.listed) }
{
    let listed = singles(alloc, net.links().items())?;
    match States::new(net, listed) {
        Ok(states) => Ok(states),
        Err(_) => unreachable!(),
    }
}
