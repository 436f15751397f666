ghost use Rattle.std.specs.Prelude.{◌≡◌, ◌≢◌, ◌↔◌, ℕ, ◌<◌, ◌^◌, All, IfNone, IsTrue, IsFalse, length, slice_index};
ghost use Rattle.plan_terms.specs.Terms.{graph_in, Survives, case_of, graph_of, AreKept};
ghost use Rattle.plan_report.specs.Terms.{IsCutInForm};
ghost use Rattle.plan_checker.{specs.Certified.IsLocalCut, specs.Places.HoldsAt, specs.inner.Tests.IsFirstPlace};

use metric_cut::divisor_of_lengths;
use net_core::{Instance, LinkId, Surviving};
use plan_types::{CertLine, Spot};

/// Whether each link of positive length survives.
fn all_survive(graph: &Surviving, lengths: &[u32]) -> bool
    requires { length lengths.now ≡ length graph.now.net.now.links }
    ensures { let g = graph_of graph.now in IsTrue result ↔ ((e : ℕ) → slice_index lengths.now e ≢ 0 → Survives g e) }
{
    for e in 0..lengths.len() {
        if lengths[e] != 0 && !graph.has(LinkId(e as u32)) {
            return false;
        }
    }
    true
}

/// Whether the state keeps lengths, one per link, as they are, by the links and their divisor, without a search. It takes time in the links,
/// times those that the state fails.
pub fn is_kept(graph: &Surviving, lengths: &[u32]) -> bool
    requires { length lengths.now ≡ length graph.now.net.now.links }
    ensures { let g = graph_of graph.now in IsTrue result ↔ AreKept g lengths.now }
{
    all_survive(graph, lengths) && divisor_of_lengths(lengths) == 1
}

/// Whether a line isn't in the pool, which has room, or its state doesn't keep its lengths.
fn is_local(instance: &Instance, line: &CertLine, full: bool) -> bool
    requires { IsCutInForm instance.now.net.now.links instance.now.states.now.listed line.now.cut }
    ensures local { IsTrue result ↔ IsLocalCut (case_of instance.now) full line.now }
    ensures kept { IsFalse result → AreKept (graph_in (case_of instance.now) line.now.cut.state.0) line.now.cut.lengths }
{
    let graph = instance.in_state(line.cut.state);
    (line.spot == Spot::Local && !full) || !is_kept(&graph, line.cut.lengths.items())
}

/// The first such line.
pub(crate) fn first_local(instance: &Instance, lines: &[CertLine], full: bool) -> Option<u32>
    requires few { length lines.now < 2 ^ 32 }
    requires form { All (λ l. IsCutInForm instance.now.net.now.links instance.now.states.now.listed l.cut) lines.now }
    ensures first { IsFirstPlace (λ k. HoldsAt lines.now k (IsLocalCut (case_of instance.now) full)) result }
    ensures kept { IfNone result (All (λ l. AreKept (graph_in (case_of instance.now) l.cut.state.0) l.cut.lengths) lines.now) }
{
    for i in 0..lines.len() {
        if is_local(instance, &lines[i], full) {
            return Some(i as u32);
        }
    }
    None
}
