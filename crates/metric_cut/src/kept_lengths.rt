ghost use Rattle.std.specs.Prelude.{◌≡◌, ◌<◌, ◌↔◌, IsTrue, IsFalse, length};
ghost use Rattle.plan_terms.specs.Terms.{graph_of, IsGreatestDivisor, AreZero, Keeps};
ghost use Rattle.metric_cut.specs.inner.Masks.{AreDivided, AreMasked};

use checked_fraction::gcd;
use net_core::{Lengths, LinkId, Surviving};

/// Sets the length of each link that doesn't survive to 0.
fn mask(graph: &Surviving, lengths: &mut [u32])
    requires { length lengths.old ≡ length graph.now.net.now.links }
    ensures { AreMasked (graph_of graph.now) lengths.old lengths.new }
{
    for e in 0..lengths.len() {
        if !graph.has(LinkId(e as u32)) {
            lengths[e] = 0;
        }
    }
}

/// The greatest common divisor of lengths. It is 0 where all are 0. It takes time in their count, and no memory.
pub fn divisor_of_lengths(lengths: &[u32]) -> u128
    ensures { IsGreatestDivisor lengths.now result }
{
    let mut common = 0;
    for length in lengths {
        common = gcd(common, *length as u128);
    }
    common
}

/// Divides each length.
fn divide(lengths: &mut [u32], common: u128)
    requires { 0 < common }
    ensures { AreDivided common lengths.old lengths.new }
{
    for e in 0..lengths.len() {
        lengths[e] = (lengths[e] as u128 / common) as u32;
    }
}

/// `keep` on a slice.
fn keep_items(graph: &Surviving, lengths: &mut [u32]) -> bool
    requires { length lengths.old ≡ length graph.now.net.now.links }
    ensures zero { IsFalse result ↔ AreZero (graph_of graph.now) lengths.old }
    ensures kept { IsTrue result → Keeps (graph_of graph.now) lengths.old lengths.new }
{
    mask(graph, lengths);
    let common = divisor_of_lengths(lengths);
    if common == 0 {
        return false;
    }
    divide(lengths, common);
    true
}

/// Divides the lengths of the surviving links by their greatest common divisor, and sets the others to 0.
/// False if no surviving link has a positive length.
pub(crate) fn keep(graph: &Surviving, lengths: &mut Lengths) -> bool
    requires { length lengths.old ≡ length graph.now.net.now.links }
    ensures zero { IsFalse result ↔ AreZero (graph_of graph.now) lengths.old }
    ensures kept { IsTrue result → Keeps (graph_of graph.now) lengths.old lengths.new }
{
    keep_items(graph, lengths.items_mut())
}
