ghost use Rattle.std.specs.Prelude.{◌≡◌, ◌↔◌, ℕ, IsTrue, MatchOption};
ghost use Rattle.plan_report.specs.Terms.{state_name};
ghost use Rattle.view_state.specs.NamedStates.{IsNamedState};

use net_core::{Listed, StateId, States};
use plan_report::state_name;

/// Whether two names are the same.
fn are_alike(name: &[u8], other: &[u8]) -> bool
    ensures { IsTrue result ↔ (name.now ≡ other.now) }
{
    name == other
}

/// Whether a state has this name.
fn is_named(listed: &[Listed], state: u32, name: &[u8]) -> bool
    ensures { IsTrue result ↔ (state_name listed.now state ≡ name.now) }
{
    are_alike(state_name(listed, StateId(state)), name)
}

/// The first state of this name, of which `none` is the one without failures; none where no state has it. It takes time in the states.
///
/// ```text
/// let state = named_state(&problem.states, b"AC");   // Some(3) in the triangle, where each link fails alone
/// ```
pub fn named_state(states: &States, name: &[u8]) -> Option<u32>
    ensures { MatchOption result ((s : ℕ) → IsNamedState states.now.listed name.now s → ⊥) (λ s. IsNamedState states.now.listed name.now s) }
{
    for state in 0..states.count() {
        if is_named(states.listed().items(), state, name) {
            return Some(state);
        }
    }
    None
}
