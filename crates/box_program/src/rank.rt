ghost use Rattle.std.specs.Prelude.{◌<◌, length};

use crate::solution::Amount;
use crate::spans::cost_at;
use net_core::{Link, List};
use tree_check::Span;
use tree_check::boxes::span_at;

/// What the least counts of a link's modules cost.
fn link_cost(links: &[Link], boxed: &[List<Span>], e: usize) -> u128
    requires { e < length links.now }
{
    let modules = links[e].modules.items();
    let mut sum = 0u128;
    for m in 0..modules.len() {
        let least = span_at(boxed, e, m).least;
        sum = sum.saturating_add(least.saturating_mul(modules[m].cost as u128));
    }
    sum
}

/// What the least counts of a box cost, in units of the network.
fn least_cost(links: &[Link], boxed: &[List<Span>]) -> u128 {
    let mut sum = 0u128;
    for e in 0..links.len() {
        sum = sum.saturating_add(link_cost(links, boxed, e));
    }
    sum
}

/// What the amounts of a program cost with the least counts of all other modules, in thousandths of a unit of the network.
pub(crate) fn rank_of(links: &[Link], boxed: &[List<Span>], amounts: &[Amount], den: u128) -> u128
    requires { 0 < den }
{
    let mut wholes = least_cost(links, boxed);
    let mut parts = 0u128;
    for a in amounts {
        let cost = cost_at(links, a.link, a.module) as u128;
        let more = a
            .whole
            .saturating_sub(span_at(boxed, a.link, a.module).least);
        wholes = wholes.saturating_add(more.saturating_mul(cost));
        parts = parts.saturating_add(a.part.saturating_mul(cost));
    }
    wholes
        .saturating_mul(1000)
        .saturating_add(parts.saturating_mul(1000) / den)
}
