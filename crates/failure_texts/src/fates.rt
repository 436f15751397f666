ghost use Rattle.std.specs.Prelude.{◌≡◌, ◌∷◌, [], IfOk, length};
ghost use Rattle.plan_terms.specs.Terms.{AreDemands, single_state};
ghost use Rattle.failure_texts.specs.Fates.{AreFates, IsFate};

use failure_states::first_separated;
use model_reader::single_failure;
use net_core::{Demands, Link, LinkId, List, Network, NoMemory, States};
use std::alloc::Global;

/// The effect of the failure of a link alone.
#[derive(Clone, Copy, Debug, PartialEq, Eq)]
pub(crate) struct Fate {
    pub(crate) link: LinkId,
    /// The place of the first demand that is separated where it fails; none where no demand is.
    pub(crate) separated: Option<u32>,
}

/// The states in which nothing fails, or this link alone. One state that fails one link of the network has no fault.
fn states_with(alloc: Global, net: &Network, id: LinkId, link: &Link) -> Result<States, NoMemory>
    ensures { IfOk result (λ s. s.listed ≡ single_state id.0 link.now.name ∷ []) }
{
    let mut listed = List::new(alloc);
    let state = single_failure(alloc, id, link)?;
    listed.push(state)?;
    match States::new(net, listed) {
        Ok(states) => Ok(states),
        Err(_) => Err(NoMemory),
    }
}

/// The effect of the failure of this link alone.
#[tactic(auto, using(crate::proofs::Alone::survivable_alone, crate::proofs::Alone::separated_alone))]
fn fate_of(
    alloc: Global,
    net: &Network,
    demands: &Demands,
    id: LinkId,
    link: &Link,
) -> Result<Fate, NoMemory>
    requires { AreDemands (length net.now.nodes) demands.now }
    ensures { IfOk result (IsFate net.now demands.now id.0 link.now) }
{
    let states = states_with(alloc, net, id, link)?;
    match first_separated(alloc, net, &states, demands)? {
        None => Ok(Fate {
            link: id,
            separated: None,
        }),
        Some(found) => Ok(Fate {
            link: id,
            separated: Some(found.demand),
        }),
    }
}

/// The effect of the failure of each link alone, in the order of the links. A demand that is separated where nothing fails is separated by
/// each. It takes for each link time in the square of the nodes, in the demands and in the links.
#[tactic(auto, using(crate::proofs::FateLists::none_told))]
pub(crate) fn fates_of(
    alloc: Global,
    net: &Network,
    demands: &Demands,
) -> Result<List<Fate>, NoMemory>
    requires { AreDemands (length net.now.nodes) demands.now }
    ensures { IfOk result (AreFates net.now demands.now (length net.now.links)) }
{
    let links = net.links().items();
    let mut fates = List::new(alloc);
    for e in 0..links.len() {
        let fate = fate_of(alloc, net, demands, LinkId(e as u32), &links[e])?;
        fates.push(fate)?;
    }
    Ok(fates)
}
