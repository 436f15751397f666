ghost use Rattle.std.specs.Prelude.{◌≡◌, ◌≢◌, ℕ, ◌+◌, ◌<◌, ◌≤◌, ◌⊎◌, ◌==◌, All, AllPairs, Any, OnOk, IsTrue, if◌then◌else◌, length, slice_index};
ghost use Rattle.plan_terms.specs.Terms.{names_link};
ghost use Rattle.greedy_router.specs.inner.Drafts.{Sends, SendsOpen};

use crate::draft::Draft;
use net_core::{Copied, Flow, LinkId, NoMemory, Path};

/// The least of an amount and of what is left along a path.
fn least_spare(spares: &[u128], path: &[LinkId], most: u128) -> u128
    requires known { All (λ e. e.0 < length spares.now) path.now }
    ensures most { result ≤ most }
    ensures spare { All (λ e. result ≤ slice_index spares.now e.0) path.now }
    ensures reached { (result ≡ most) ⊎ Any (λ e. result ≡ slice_index spares.now e.0) path.now }
{
    let mut least = most;
    for e in path {
        least = least.min(spares[e.0 as usize]);
    }
    least
}

/// Takes an amount from each link of a path.
fn take_along(spares: &mut [u128], path: &[LinkId], num: u128)
    requires known { All (λ e. e.0 < length spares.old) path.now }
    requires distinct { AllPairs (λ x y. x.0 ≢ y.0) path.now }
    requires enough { All (λ e. num ≤ slice_index spares.old e.0) path.now }
    ensures count { length spares.new ≡ length spares.old }
    ensures taken { (e : ℕ) → slice_index spares.new e + (if names_link e path.now then num else 0) ≡ slice_index spares.old e }
{
    for e in path {
        spares[e.0 as usize] -= num;
    }
}

/// Takes an amount from what is missing of a demand.
fn take_rest(rest: &mut [u128], demand: u32, num: u128)
    requires known { demand < length rest.old }
    requires enough { num ≤ slice_index rest.old demand }
    ensures count { length rest.new ≡ length rest.old }
    ensures taken { (j : ℕ) → slice_index rest.new j + (if demand == j then num else 0) ≡ slice_index rest.old j }
{
    rest[demand as usize] -= num;
}

/// Sends along a path of links that aren't full as much as they have left, up to what is missing of the demand.
pub fn send(draft: &mut Draft, demand: u32, path: Path) -> Result<(), NoMemory>
    requires demand { demand < length draft.old.rest }
    requires missing { 0 < slice_index draft.old.rest demand }
    requires known { All (λ e. e.0 < length draft.old.spares) path }
    requires distinct { AllPairs (λ x y. x.0 ≢ y.0) path }
    requires open { All (λ e. 0 < slice_index draft.old.spares e.0) path }
    ensures { OnOk result (Sends demand path draft.old draft.new) }
{
    let missing = draft.rest.items()[demand as usize];
    let num = least_spare(draft.spares.items(), path.items(), missing);
    take_along(draft.spares.items_mut(), path.items(), num);
    take_rest(draft.rest.items_mut(), demand, num);
    draft.flows.push(Flow { demand, path, num })?;
    Ok(())
}

/// Whether no link of a path is full.
fn is_open(spares: &[u128], path: &[LinkId]) -> bool
    requires { All (λ e. e.0 < length spares.now) path.now }
    ensures { IsTrue result → All (λ e. 0 < slice_index spares.now e.0) path.now }
{
    for e in path {
        if spares[e.0 as usize] == 0 {
            return false;
        }
    }
    true
}

/// Sends along the path of an earlier flow as much as its links have left, up to what is missing of the demand.
pub fn send_again(flow: &Flow, draft: &mut Draft) -> Result<(), NoMemory>
    requires demand { flow.now.demand < length draft.old.rest }
    requires known { All (λ e. e.0 < length draft.old.spares) flow.now.path }
    requires distinct { AllPairs (λ x y. x.0 ≢ y.0) flow.now.path }
    ensures { OnOk result ((draft.new ≡ draft.old) ⊎ SendsOpen flow.now.demand flow.now.path draft.old draft.new) }
{
    let missing = draft.rest.items()[flow.demand as usize];
    if missing == 0 || !is_open(draft.spares.items(), flow.path.items()) {
        return Ok(());
    }
    send(draft, flow.demand, flow.path.copy()?)
}
