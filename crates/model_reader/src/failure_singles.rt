ghost use Rattle.std.specs.Prelude.{◌≡◌, ◌≤◌, [], ◌∷◌, length, IfOk};
ghost use Rattle.net_core.{specs.Terms.{AreStates, single_state}, specs.Limits.most_links};
ghost use Rattle.model_reader.specs.Failures.{single_states};

use net_core::{Copied, Link, LinkId, List, Listed, Network, NoMemory, States};
use std::alloc::Global;

/// The state without failures alone. It takes no memory.
pub fn only_none(alloc: Global) -> States
    ensures { result.listed ≡ [] }
{
    States::only_none(alloc)
}

/// A list of one item.
fn just(alloc: Global, link: LinkId) -> Result<List<LinkId>, NoMemory>
    ensures { IfOk result (λ l. l ≡ link ∷ []) }
{
    let mut links = List::new(alloc);
    links.push(link)?;
    Ok(links)
}

/// The failure of a single link, as a state with its name. It takes memory for the name.
pub fn single_failure(alloc: Global, id: LinkId, link: &Link) -> Result<Listed, NoMemory>
    ensures { IfOk result (λ s. s ≡ single_state id.0 link.now.name) }
{
    Ok(Listed {
        name: link.name.copy()?,
        links: just(alloc, id)?,
    })
}

/// Each link as a state of its name.
fn singles(alloc: Global, links: &[Link]) -> Result<List<Listed>, NoMemory>
    requires { length links.now ≤ most_links }
    ensures { IfOk result (λ listed. listed ≡ single_states links.now) }
{
    let mut listed = List::new(alloc);
    for i in 0..links.len() {
        let state = single_failure(alloc, LinkId(i as u32), &links[i])?;
        listed.push(state)?;
    }
    Ok(listed)
}

/// Every single-link failure, as a state with the name of the link, in the order of the links. It takes memory for the
/// states, and time in the square of the number of links, since their names are compared again.
///
/// In the triangle AB, BC, AC they are three states, AB, BC and AC.
pub fn single_links(alloc: Global, net: &Network) -> Result<States, NoMemory>
    ensures list { IfOk result (λ states. states.listed ≡ single_states net.now.links) }
    ensures belong { IfOk result (λ states. AreStates (length net.now.links) states.listed) }
{
    let listed = singles(alloc, net.links().items())?;
    match States::new(net, listed) {
        Ok(states) => Ok(states),
        Err(_) => unreachable!(),
    }
}
