//! Asks a separator about a problem that may be wrong.
ghost use Rattle.std.specs.Prelude.{◌≡◌, ◌≢◌, ◌⊎◌, IfOk, IfSome, None, length};
ghost use Rattle.plan_terms.specs.Terms.{case, IsSurvivable};
ghost use Rattle.separator.specs.Separators.{AreStateAnswers};

use failure_states::first_separated;
use net_core::{Caps, Instance, List, NoMemory, Problem};
use separator::{Separate, StateAnswer};
use std::alloc::Global;

/// The answers of a separator for a problem of its network and states. `None` if the scale is 0, if there isn't one number for each link,
/// or if a state separates a demand.
///
/// It takes the time and memory of `first_separated`, and then those of the separator.
pub fn separate_checked<S: Separate>(
    alloc: Global,
    separator: &mut S,
    problem: &Problem,
    caps: &Caps,
) -> Result<Option<List<StateAnswer>>, NoMemory>
    requires net { problem.now.net ≡ (S.frame separator.old).network }
    requires listed { problem.now.states ≡ (S.frame separator.old).states }
    ensures refused { IfOk result (λ o. o ≡ None → (caps.now.scale ≡ 0) ⊎ (length caps.now.nums ≢ length problem.now.net.links)
        ⊎ (IsSurvivable (case problem.now.net problem.now.states problem.now.demands) → ⊥)) }
    ensures frame { S.frame separator.new ≡ S.frame separator.old }
    ensures answers { IfOk result (λ o. IfSome o
        (λ answers. ∥ AreStateAnswers (case problem.now.net problem.now.states problem.now.demands) caps.now
        (S.seen_of separator.new).history answers ∥₁)) }
{
    let Problem {
        net,
        states,
        demands,
        ..
    } = problem;
    if caps.scale == 0 || caps.nums.len() != net.links().len() {
        return Ok(None);
    }
    match first_separated(alloc, net, states, demands)? {
        Some(_) => Ok(None),
        None => {
            let instance = Instance {
                net,
                states,
                demands,
            };
            Ok(Some(separator.separate(&instance, caps)?))
        }
    }
}
