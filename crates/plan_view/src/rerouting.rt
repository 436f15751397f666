ghost use Rattle.std.{specs.Prelude.{◌≡◌, ℕ, ◌+◌, ◌*◌, ◌^◌, ◌<◌, ◌≤◌, All, ◌∷◌, length}, specs.List.list_any};
ghost use Rattle.plan_view.{specs.Reroutes.{brought_beyond, brought, goes_as, rerouted}, specs.Rounding.IsCeiling};

use crate::fractions::is_less;
use net_core::{Flow, Routing};

/// What goes other ways in a state: what it sums to there, over the state's denominator, and what goes the same ways without failures,
/// over the denominator without failures.
#[derive(Clone, Copy)]
struct Moved {
    now: u128,
    before: u128,
}

fn goes_as(f: &Flow, other: &Flow) -> bool
    ensures { result ≡ goes_as f.now other.now }
{
    f.demand == other.demand && f.path.items() == other.path.items()
}

/// Whether one of the flows has the demand and the path of `f`. It takes time in the links of their paths.
pub fn goes_again(f: &Flow, flows: &[Flow]) -> bool
    ensures { result ≡ list_any (λ g. goes_as f.now g) flows.now }
{
    flows.iter().any(|g| goes_as(f, g))
}

/// What flows bring of the demand of `f` along its path, over their denominator.
fn brought(flows: &[Flow], f: &Flow) -> u128
    requires { brought flows.now f.now ≤ 2 ^ 102 }
    ensures { result ≡ brought flows.now f.now }
{
    let mut sum = 0;
    for g in flows {
        if goes_as(f, g) {
            sum += g.num;
        }
    }
    sum
}

/// What the routing brings of the demand of `f` along its path, where that is more than the normal one does.
fn moved_of(normal: &Routing, routing: &Routing, f: &Flow) -> Moved
    requires positive { 0 < routing.now.den }
    requires normal { 0 < normal.now.den }
    requires now { brought routing.now.flows f.now ≤ 2 ^ 102 }
    requires before { brought normal.now.flows f.now ≤ 2 ^ 102 }
    ensures value { result.now * normal.now.den ≡ result.before * routing.now.den + brought_beyond normal.now routing.now f.now }
    ensures now { result.now ≤ 2 ^ 102 }
    ensures before { result.before ≤ 2 ^ 102 }
{
    let now = brought(routing.flows.items(), f);
    let before = brought(normal.flows.items(), f);
    if is_less(before, normal.den as u128, now, routing.den as u128) {
        Moved { now, before }
    } else {
        Moved { now: 0, before: 0 }
    }
}

/// What the routing brings of the demand of `f` along its path, where that is more than the normal one does and none of the flows left is of
/// its demand along its path; else nothing.
fn moved_last(normal: &Routing, routing: &Routing, f: &Flow, left: &[Flow]) -> Moved
    requires positive { 0 < routing.now.den }
    requires normal { 0 < normal.now.den }
    requires now { brought routing.now.flows f.now ≤ 2 ^ 102 }
    requires before { brought normal.now.flows f.now ≤ 2 ^ 102 }
    ensures value { result.now * normal.now.den + rerouted normal.now routing.now left.now
        ≡ result.before * routing.now.den + rerouted normal.now routing.now (f.now ∷ left.now) }
    ensures now { result.now ≤ 2 ^ 102 }
    ensures before { result.before ≤ 2 ^ 102 }
{
    if goes_again(f, left) {
        Moved { now: 0, before: 0 }
    } else {
        moved_of(normal, routing, f)
    }
}

/// What of these flows goes other ways, summed.
#[tactic(auto, using(crate::proofs::Sums::rerouted_from))]
fn all_moved(normal: &Routing, routing: &Routing, flows: &[Flow]) -> Moved
    requires few { length flows.now ≤ 2 ^ 16 }
    requires positive { 0 < routing.now.den }
    requires normal { 0 < normal.now.den }
    requires now { All (λ f. brought routing.now.flows f ≤ 2 ^ 102) flows.now }
    requires before { All (λ f. brought normal.now.flows f ≤ 2 ^ 102) flows.now }
    ensures { result.now * normal.now.den ≡ result.before * routing.now.den + rerouted normal.now routing.now flows.now }
{
    let mut sums = Moved { now: 0, before: 0 };
    for i in 0..flows.len() {
        let more = moved_last(normal, routing, &flows[i], &flows[i + 1..]);
        sums = Moved {
            now: sums.now + more.now,
            before: sums.before + more.before,
        };
    }
    sums
}

/// The difference of `now / den` and `before / normal`, which isn't greater, rounded up.
fn difference(sums: Moved, den: u64, normal: u64) -> u128
    requires some { 0 < den }
    requires normal_some { 0 < normal }
    requires den { den < 2 ^ 62 }
    requires normal { normal < 2 ^ 62 }
    requires least { sums.before * den ≤ sums.now * normal }
    ensures { (rest : ℕ) → sums.now * normal ≡ sums.before * den + rest → IsCeiling rest (den * normal) result }
{
    let (den, normal) = (den as u128, normal as u128);
    let whole = sums.now / den - sums.before / normal;
    if (sums.now % den) * normal > (sums.before % normal) * den {
        whole + 1
    } else {
        whole
    }
}

/// The amount that goes other ways in a state than without failures, rounded up to a unit of the network.
pub(crate) fn rerouted_amount(normal: &Routing, routing: &Routing) -> u128
    requires few { length routing.now.flows ≤ 2 ^ 16 }
    requires positive { 0 < routing.now.den }
    requires normal { 0 < normal.now.den }
    requires den { routing.now.den < 2 ^ 62 }
    requires normal_den { normal.now.den < 2 ^ 62 }
    requires now { All (λ f. brought routing.now.flows f ≤ 2 ^ 102) routing.now.flows }
    requires before { All (λ f. brought normal.now.flows f ≤ 2 ^ 102) routing.now.flows }
    ensures { IsCeiling (rerouted normal.now routing.now routing.now.flows) (routing.now.den * normal.now.den) result }
{
    let sums = all_moved(normal, routing, routing.flows.items());
    difference(sums, routing.den, normal.den)
}
