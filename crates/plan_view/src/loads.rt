ghost use Rattle.std.specs.Prelude.{◌≡◌, ◌*◌, ◌<◌, ◌≤◌, ◌^◌, ◌↔◌, IsTrue};
ghost use Rattle.plan_terms.specs.Terms.{load, names_link};
ghost use Rattle.plan_view.specs.Rounding.{IsCeiling};

use crate::fractions::{ceiling, is_less};
use net_core::{Flow, LinkId, Routing};

fn names_link(link: LinkId, path: &[LinkId]) -> bool
    ensures { result ≡ names_link link.0 path.now }
{
    path.iter().any(|x| x.0 == link.0)
}

/// The load that flows bring onto a link, over their denominator. It takes time in the links of their paths, and no memory.
pub fn load_of(flows: &[Flow], link: LinkId) -> u128
    requires { load flows.now link.0 < 2 ^ 128 }
    ensures { result ≡ load flows.now link.0 }
{
    let mut load = 0;
    for f in flows {
        if names_link(link, f.path.items()) {
            load += f.num;
        }
    }
    load
}

/// Whether a link has less load in the first routing than in the other.
pub(crate) fn is_loaded_less(one: &Routing, other: &Routing, link: LinkId) -> bool
    requires low { load one.now.flows link.0 < 2 ^ 128 }
    requires other_low { load other.now.flows link.0 < 2 ^ 128 }
    requires positive { 0 < one.now.den }
    requires other_positive { 0 < other.now.den }
    ensures { IsTrue result ↔ (load one.now.flows link.0 * other.now.den < load other.now.flows link.0 * one.now.den) }
{
    is_less(
        load_of(one.flows.items(), link),
        one.den as u128,
        load_of(other.flows.items(), link),
        other.den as u128,
    )
}

/// The load of a link, rounded up to a unit of the network.
pub(crate) fn whole_load(routing: &Routing, link: LinkId) -> u128
    requires low { load routing.now.flows link.0 < 2 ^ 128 }
    requires positive { 0 < routing.now.den }
    ensures { IsCeiling (load routing.now.flows link.0) routing.now.den result }
{
    ceiling(load_of(routing.flows.items(), link), routing.den as u128)
}

/// How much of a link's capacity is used, in per cent, rounded up; 0 if there is no capacity.
#[tactic(auto, using(crate::proofs::Rounding::at_most_hundred))]
pub(crate) fn use_of(routing: &Routing, link: LinkId, capacity: u128) -> u32
    requires within { load routing.now.flows link.0 ≤ capacity * routing.now.den }
    requires low { capacity < 2 ^ 46 }
    requires den { routing.now.den < 2 ^ 62 }
    ensures { IsCeiling (100 * load routing.now.flows link.0) (capacity * routing.now.den) result }
{
    let load = load_of(routing.flows.items(), link);
    ceiling(100 * load, capacity * routing.den as u128) as u32
}
