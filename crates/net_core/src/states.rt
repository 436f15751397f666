ghost use Rattle.std.{specs.Prelude.{◌≡◌, ◌<◌, ◌^◌, ◌+◌, ◌==◌, None, Some, MatchResult, IsOk, [], length, nat_lt, not}, specs.List.list_any};
ghost use Rattle.net_core.{specs.Tests.{first_fault, is_named}, specs.States.{AreStates, IsStateList, all_listed_tests, fails, listed_tests, names_link, states_fault}};

use crate::ids::{LinkId, StateId};
use crate::limits::MOST_FAILURES;
use crate::list::{Copied, List, NoMemory};
use crate::name::Name;
use crate::network::Network;
use std::alloc::Global;
use thiserror::Error;

/// A state that a failure list gives: its name and the links that fail.
#[derive(Drop)]
pub struct Listed {
    pub name: Name,
    pub links: List<LinkId>,
}

impl Copied for Listed {
    fn copy(&self) -> Result<Listed, NoMemory> {
        Ok(Listed {
            name: self.name.copy()?,
            links: self.links.copy()?,
        })
    }
}

/// Failure states that passed their check. State 0 is the state without failures, and it is not in the list.
#[derive(Drop)]
pub struct States {
    listed: List<Listed>,
    pub ghost checked: { ∥ IsStateList listed ∥₁ },
}

impl Copied for States {
    fn copy(&self) -> Result<States, NoMemory> {
        Ok(States {
            listed: self.listed.copy()?,
        })
    }
}

/// Why listed states are refused; the number is the state's place in the list.
#[derive(Clone, Copy, Debug, PartialEq, Eq, Error)]
pub enum StatesFault {
    /// More than 256 states.
    #[error("more than 256 states")]
    TooMany,
    /// No link.
    #[error("listed state {0}: no link")]
    Empty(u32),
    /// A link that the network lacks.
    #[error("listed state {0}: an unknown link")]
    UnknownLink(u32),
    /// An earlier state has the name.
    #[error("listed state {0}: the name of an earlier state")]
    DoubleState(u32),
}

fn names_unknown(links: usize, failed: &[LinkId]) -> bool
    ensures { result ≡ list_any (λ e. not (nat_lt e.0 links)) failed.now }
{
    failed.iter().any(|e| !((e.0 as usize) < links))
}

fn names_link(e: LinkId, failed: &[LinkId]) -> bool
    ensures { result ≡ names_link e.0 failed.now }
{
    failed.iter().any(|x| x.0 == e.0)
}

/// Whether a state earlier in the list has the name.
fn is_state_among(name: &Name, earlier: &[Listed]) -> bool
    ensures { result ≡ is_named (λ x. x.name) name.now earlier.now }
{
    earlier.iter().any(|other| other.name == *name)
}

/// The first fault of a listed state after earlier ones.
fn listed_fault(links: usize, earlier: &[Listed], l: &Listed) -> Option<StatesFault>
    requires { length earlier.now < 2 ^ 32 }
    ensures { result ≡ first_fault (listed_tests links earlier.now l.now) }
{
    let at = earlier.len() as u32;
    if l.links.len() == 0 {
        return Some(StatesFault::Empty(at));
    }
    if names_unknown(links, l.links.items()) {
        return Some(StatesFault::UnknownLink(at));
    }
    if is_state_among(&l.name, earlier) {
        return Some(StatesFault::DoubleState(at));
    }
    None
}

fn states_fault(links: usize, listed: &[Listed]) -> Option<StatesFault>
    ensures { result ≡ states_fault links listed.now }
{
    if listed.len() > MOST_FAILURES {
        return Some(StatesFault::TooMany);
    }
    for i in 0..listed.len() {
        let fault = listed_fault(links, &listed[..i], &listed[i]);
        if fault.is_some() {
            return fault;
        }
    }
    None
}

impl States {
    /// The states of this list, which is dropped at a refusal. It compares each name with all before it, so it
    /// takes time in the square of the number of states. It asks for no memory.
    pub fn new(net: &Network, listed: List<Listed>) -> Result<States, StatesFault>
        ensures faults { MatchResult result (λ _. states_fault (length net.now.links) listed ≡ None)
            (λ f. states_fault (length net.now.links) listed ≡ Some f) }
        ensures accepted { AreStates (length net.now.links) listed → IsOk result }
        ensures list { MatchResult result (λ s. (s.listed ≡ listed) × AreStates (length net.now.links) s.listed) (λ _. Unit {0}) }
    {
        match states_fault(net.links().len(), listed.items()) {
            Some(fault) => Err(fault),
            None => Ok(States { listed }),
        }
    }

    /// The state without failures alone. It asks for no memory.
    pub fn only_none(alloc: Global) -> States
        ensures { result.listed ≡ [] }
    {
        States {
            listed: List::new(alloc),
        }
    }

    /// The list, without a copy. It takes constant time.
    pub fn listed(&self) -> &List<Listed>
        ensures { result.now ≡ self.now.listed }
    {
        &self.listed
    }

    /// How many states there are, the one without failures among them.
    /// It takes constant time, as `listed` does.
    pub fn count(&self) -> u32
        ensures { result ≡ length self.now.listed + 1 }
    {
        self.listed.len() as u32 + 1
    }

    /// Whether the state fails the link. It goes through the links that the state fails, and asks for no memory.
    pub fn fails(&self, state: StateId, link: LinkId) -> bool
        requires { state.0 < length self.now.listed + 1 }
        ensures { result ≡ fails self.now.listed state.0 link.0 }
    {
        if state.0 == 0 {
            return false;
        }
        names_link(
            link,
            self.listed.items()[state.0 as usize - 1].links.items(),
        )
    }
}
