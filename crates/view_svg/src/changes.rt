ghost use Rattle.std.specs.Prelude.{◌≡◌, ℕ, ◌*◌, ◌^◌, ◌<◌, ◌≤◌, ◌++◌, ◌∷◌, [], IfOk, OnOk};
ghost use Rattle.plan_terms.specs.Terms.{load};
ghost use Rattle.plan_view.specs.Terms.{IsCeiling};
ghost use Rattle.view_svg.specs.Changes.{AreRoundedLoads, changed_flows};

use net_core::{Copied, Flow, LinkId, List, NoMemory};
use plan_view::{goes_again, load_of};
use std::alloc::Global;

/// Puts a flow last, if no flow of the same demand takes its path where nothing fails.
fn push_changed(changed: &mut List<Flow>, normal: &[Flow], f: &Flow) -> Result<(), NoMemory>
    ensures { OnOk result (changed.new ≡ changed.old ++ changed_flows normal.now (f.now ∷ [])) }
{
    if goes_again(f, normal) {
        return Ok(());
    }
    changed.push(f.copy()?)?;
    Ok(())
}

/// The flows whose path none of the same demand takes where nothing fails.
fn changed_flows(alloc: Global, normal: &[Flow], flows: &[Flow]) -> Result<List<Flow>, NoMemory>
    ensures { IfOk result (λ changed. changed ≡ changed_flows normal.now flows.now) }
{
    let mut changed = List::new(alloc);
    for f in flows {
        push_changed(&mut changed, normal, f)?;
    }
    Ok(changed)
}

/// What flows bring onto a link, rounded up to a unit of the network; nothing over a denominator of 0.
fn rounded_load(flows: &[Flow], den: u64, link: LinkId) -> u128
    requires { load flows.now link.0 ≤ 2 ^ 46 * den }
    ensures { IsCeiling (load flows.now link.0) den result }
{
    let load = load_of(flows, link);
    if den == 0 {
        return 0;
    }
    load.div_ceil(den as u128)
}

/// What flows bring onto each link, rounded up to a unit of the network.
#[tactic(auto, using(crate::proofs::ChangedLoads::loads_none, crate::proofs::ChangedLoads::loads_more))]
fn rounded_loads(
    alloc: Global,
    flows: &[Flow],
    den: u64,
    links: usize,
) -> Result<List<u128>, NoMemory>
    requires few { links < 2 ^ 32 }
    requires within { (e : ℕ) → load flows.now e ≤ 2 ^ 46 * den }
    ensures { IfOk result (AreRoundedLoads flows.now den links) }
{
    let mut amounts = List::new(alloc);
    for e in 0..links as u32 {
        amounts.push(rounded_load(flows, den, LinkId(e)))?;
    }
    Ok(amounts)
}

/// What each link carries along paths that no flow of the same demand takes where nothing fails, rounded up to a unit of the
/// network. It takes time in the links of all paths times the number of links and in the square of the flows, and memory for the flows that
/// take such paths and an amount of each link.
pub(crate) fn changes_of(
    alloc: Global,
    normal: &[Flow],
    flows: &[Flow],
    den: u64,
    links: usize,
) -> Result<List<u128>, NoMemory>
    requires few { links < 2 ^ 32 }
    requires within { (e : ℕ) → load flows.now e ≤ 2 ^ 46 * den }
    ensures { IfOk result (AreRoundedLoads (changed_flows normal.now flows.now) den links) }
{
    let changed = changed_flows(alloc, normal, flows)?;
    rounded_loads(alloc, changed.items(), den, links)
}
