ghost use Rattle.std.{specs.Prelude.{◌≡◌, ◌<◌, ◌≤◌, ◌^◌, All, map}, specs.Int.◌∣◌};
ghost use Rattle.route_law.specs.Terms.{flow_times};
ghost use Rattle.flow_router.specs.Lowest.{IsCommonDivisor, IsInLowest};

use checked_fraction::gcd;
use net_core::{Flow, List, Routing};

/// The greatest common divisor of a denominator and the numerators of flows. It takes one of two numbers for each flow, and no memory.
///
/// That of the denominator 4 and flows of 2 and 6 is 2.
pub fn common_divisor(den: u128, flows: &[Flow]) -> u128
    requires { 0 < den }
    ensures { IsCommonDivisor den flows.now result }
{
    let mut common = den;
    for f in flows {
        common = gcd(common, f.num);
    }
    common
}

/// Divides each flow.
fn divide(flows: &mut [Flow], common: u128)
    requires positive { 0 < common }
    requires divides { All (λ f. common ∣ f.num) flows.old }
    ensures { flows.old ≡ map (flow_times common) flows.new }
{
    for i in 0..flows.len() {
        flows[i].num /= common;
    }
}

/// Divides each flow of a list.
fn divide_list(flows: &mut List<Flow>, common: u128)
    requires positive { 0 < common }
    requires divides { All (λ f. common ∣ f.num) flows.old }
    ensures { flows.old ≡ map (flow_times common) flows.new }
{
    divide(flows.items_mut(), common);
}

/// The routing in lowest terms. It takes a greatest common divisor for each flow, and no memory.
///
/// Flows of 2 and 6 over the denominator 4 are flows of 1 and 3 over 2.
pub fn lowest(routing: Routing) -> Routing
    requires { 0 < routing.den }
    ensures { IsInLowest routing result }
{
    let Routing { den, mut flows } = routing;
    let common = common_divisor(den as u128, flows.items());
    divide_list(&mut flows, common);
    Routing {
        den: (den as u128 / common) as u64,
        flows,
    }
}
