ghost use Rattle.std.specs.Prelude.{◌≡◌, ◌*◌, ◌<◌, ◌^◌, All, IfOk, length, map, Some, slice_get, ℕ};
ghost use Rattle.plan_terms.specs.Terms.{Routing};
ghost use Rattle.route_law.specs.Terms.{flow_times};
ghost use Rattle.plan_rounds.specs.inner.Sharing.{AreUndivided, IsUndivided};

use checked_fraction::gcd;
use net_core::{Flow, List, NoMemory, Routing};
use std::alloc::Global;

/// Multiplies the numerator of each flow by a factor.
fn multiply(flows: &mut [Flow], factor: u64)
    requires { All (λ f. factor * f.num < 2 ^ 124) flows.old }
    ensures { flows.new ≡ map (flow_times factor) flows.old }
{
    for i in 0..flows.len() {
        flows[i].num *= factor as u128;
    }
}

/// Multiplies the numerator of each flow of a list by a factor.
fn multiply_list(flows: &mut List<Flow>, factor: u64)
    requires { All (λ f. factor * f.num < 2 ^ 124) flows.old }
    ensures { flows.new ≡ map (flow_times factor) flows.old }
{
    multiply(flows.items_mut(), factor);
}

/// A routing in lowest terms within capacities over a divisor, as a routing in lowest terms within the capacities themselves.
fn undivided(routing: Routing, divisor: u64) -> Routing
    requires positive { 0 < divisor }
    requires den { 0 < routing.den }
    requires fits { All (λ f. divisor * f.num < 2 ^ 124) routing.flows }
    ensures { IsUndivided divisor routing result }
{
    let Routing { den, mut flows } = routing;
    let common = gcd(den as u128, divisor as u128) as u64;
    multiply_list(&mut flows, divisor / common);
    Routing {
        den: den / common,
        flows,
    }
}

/// Routings in lowest terms within capacities over a divisor, as routings in lowest terms within the capacities themselves.
pub fn undivided_all(
    alloc: Global,
    routings: List<Routing>,
    divisor: u64,
) -> Result<List<Routing>, NoMemory>
    requires positive { 0 < divisor }
    requires den { All (λ r. 0 < r.den) routings }
    requires fits { All (λ r. All (λ f. divisor * f.num < 2 ^ 124) r.flows) routings }
    ensures { IfOk result (AreUndivided divisor routings) }
{
    let mut whole = List::new(alloc);
    for routing in routings.into_vec() {
        whole.push(undivided(routing, divisor))?;
    }
    Ok(whole)
}
