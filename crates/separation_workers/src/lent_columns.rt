ghost use Rattle.std.specs.Prelude.{◌≡◌, ◌≤◌, ◌<◌, ◌+◌, length};

use crate::round::Round;
use net_core::{NoMemory, StateId};
use separator::KnownState;

/// A state of which nothing is known but a copy of this state's basis, if this state has one and no worker has it in hand.
fn begun_of(round: &Round, state: u32) -> Result<Option<KnownState>, NoMemory> {
    if let Some(kept) = round.kept.get(state as usize) {
        if let Some(known) = kept.try_lock() {
            if known.has_basis() {
                return Ok(Some(known.begun(round.alloc)?));
            }
        }
    }
    Ok(None)
}

/// A state of which nothing is known but a copy of the basis of the state before `from` in the ring, or else of the first basis that there
/// is.
fn begun_before(round: &Round, from: u32) -> Result<Option<KnownState>, NoMemory> {
    let states = round.instance.states.count();
    let before = from.checked_sub(1).unwrap_or(states.saturating_sub(1));
    if let Some(known) = begun_of(round, before)? {
        return Ok(Some(known));
    }
    for state in 0..states {
        if let Some(known) = begun_of(round, state)? {
            return Ok(Some(known));
        }
    }
    Ok(None)
}

/// Whether some state has a basis from an earlier question.
pub(crate) fn is_begun(round: &Round) -> bool {
    for kept in round.kept {
        if let Some(known) = kept.try_lock() {
            if known.has_basis() {
                return true;
            }
        }
    }
    false
}

/// Gives a state a copy of the lent basis, if less is short with it than with the state's own.
fn lend_to(round: &Round, lent: &KnownState, state: u32) -> Result<(), NoMemory>
    requires { state < length round.now.instance.states.now.listed + 1 }
{
    if let Some(kept) = round.kept.get(state as usize) {
        if let Some(mut known) = kept.try_lock() {
            let other = lent.begun(round.alloc)?;
            return known.take_nearer(other, &round.instance, StateId(state), round.caps);
        }
    }
    Ok(())
}

/// Gives each state in `from..to` a copy of the lent basis, if less is short with it than with the state's own.
fn lend_to_all(round: &Round, lent: &KnownState, from: u32, to: u32) -> Result<(), NoMemory>
    requires { to ≤ length round.now.instance.states.now.listed + 1 }
{
    for state in from..to {
        lend_to(round, lent, state)?;
    }
    Ok(())
}

/// Gives each state in `from..to` a copy of the basis of the state before `from` in the ring, or else of the first basis that there is, if
/// less is short with it than with the state's own. It is called while no worker has a state in hand, so that the outcome doesn't depend on
/// which worker is ahead.
pub(crate) fn lend(round: &Round, from: u32, to: u32) -> Result<(), NoMemory>
    requires { to ≤ length round.now.instance.states.now.listed + 1 }
{
    match begun_before(round, from)? {
        Some(lent) => lend_to_all(round, &lent, from, to),
        None => Ok(()),
    }
}
