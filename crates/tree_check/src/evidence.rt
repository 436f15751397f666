ghost use Rattle.std.specs.Prelude.{◌≡◌, ◌+◌, ◌<◌, ◌≤◌, ◌^◌, ◌↔◌, All, IfOk, IsTrue, length};
ghost use Rattle.plan_terms.specs.Terms.{AreCounts, case_of};
ghost use Rattle.plan_report.specs.Terms.{IsKindInForm, IsPathInForm, IsRouteColumnInForm};
ghost use Rattle.tree_check.{specs.Proofs.IsEvidenceAt, specs.inner.Evidences.{IsBasisInForm, IsProgramInForm}};

use module_choice::capacities;
use net_core::{
    Caps, Counts, Evidence, Instance, LinkId, NoMemory, RouteColumn, StateId, WideKind,
};
use std::alloc::Global;

/// How many rows a routing program has: one for each link and each demand.
fn rows(instance: &Instance) -> usize
    ensures { result ≡ length instance.now.net.now.links + length instance.now.demands.now }
{
    instance.net.links().len() + instance.demands.len()
}

fn is_link(instance: &Instance, link: LinkId) -> bool
    ensures { IsTrue result ↔ (link.0 < length instance.now.net.now.links) }
{
    (link.0 as usize) < instance.net.links().len()
}

fn is_demand(instance: &Instance, demand: u32) -> bool
    ensures { IsTrue result ↔ (demand < length instance.now.demands.now) }
{
    (demand as usize) < instance.demands.len()
}

/// Whether there are links on a path, all of them known.
fn is_path(instance: &Instance, path: &[LinkId]) -> bool
    ensures { IsTrue result ↔ IsPathInForm instance.now.net.now.links path.now }
{
    for e in path {
        if !is_link(instance, *e) {
            return false;
        }
    }
    path.len() > 0
}

fn is_column(instance: &Instance, column: &RouteColumn) -> bool
    ensures { IsTrue result ↔ IsRouteColumnInForm instance.now.net.now.links instance.now.demands.now column.now }
{
    match column {
        RouteColumn::LinkSlack(e) => is_link(instance, *e),
        RouteColumn::DemandSlack(k) => is_demand(instance, *k),
        RouteColumn::Carry(k, path) => is_demand(instance, *k) && is_path(instance, path.items()),
    }
}

fn are_columns(instance: &Instance, basis: &[RouteColumn]) -> bool
    ensures { IsTrue result ↔ All (IsRouteColumnInForm instance.now.net.now.links instance.now.demands.now) basis.now }
{
    for column in basis {
        if !is_column(instance, column) {
            return false;
        }
    }
    true
}

fn is_row(instance: &Instance, i: u32) -> bool
    ensures { IsTrue result ↔ (i ≤ length instance.now.net.now.links + length instance.now.demands.now) }
{
    i as usize <= rows(instance)
}

fn is_kind(instance: &Instance, kind: &WideKind<RouteColumn>) -> bool
    ensures { IsTrue result ↔ IsKindInForm (IsRouteColumnInForm instance.now.net.now.links instance.now.demands.now) ⊥
        (λ e. e.0 < length instance.now.net.now.links) (length instance.now.net.now.links + length instance.now.demands.now) kind.now }
{
    match kind {
        WideKind::Number(column) => is_column(instance, column),
        WideKind::Row(i) => is_row(instance, *i),
        WideKind::Product(i, column) => is_row(instance, *i) && is_column(instance, column),
        WideKind::Sum(i) => is_row(instance, *i),
        WideKind::Common => true,
        WideKind::Value => false,
        WideKind::Length(e) => is_link(instance, *e),
    }
}

/// Whether capacities are these, at the scale 1 and in their range.
fn are_caps(caps: &Caps, own: &[u128]) -> bool
    ensures { IsTrue result ↔ ((caps.now.scale ≡ 1) × (caps.now.nums ≡ own.now) × All (λ n. n < 2 ^ 126) caps.now.nums) }
{
    let nums = caps.nums.items();
    caps.scale == 1 && nums == own && nums.iter().all(|n| *n < 1 << 126)
}

/// Whether a state is listed.
fn is_listed(instance: &Instance, state: StateId) -> bool
    ensures { IsTrue result ↔ (state.0 ≤ length instance.now.states.now.listed) }
{
    state.0 < instance.states.count()
}

/// Whether there is a column for each row, and all are in form.
fn is_basis(instance: &Instance, basis: &[RouteColumn]) -> bool
    ensures { IsTrue result ↔ IsBasisInForm (case_of instance.now) basis.now }
{
    basis.len() == rows(instance) && are_columns(instance, basis)
}

/// Whether the state of evidence is listed, and its basis and what is too wide are in form.
fn is_program(
    instance: &Instance,
    state: StateId,
    basis: &[RouteColumn],
    kind: &WideKind<RouteColumn>,
) -> bool
    ensures { IsTrue result ↔ IsProgramInForm (case_of instance.now) state basis.now kind.now }
{
    is_listed(instance, state) && is_basis(instance, basis) && is_kind(instance, kind)
}

/// Whether evidence is route evidence in form at the scale 1 and the capacities of counts. That it holds isn't tested.
pub(crate) fn is_evidence_at(
    alloc: Global,
    instance: &Instance,
    counts: &Counts,
    evidence: &Evidence,
) -> Result<bool, NoMemory>
    requires { AreCounts instance.now.net.now.links counts.now }
    ensures { IfOk result (λ b. IsTrue b ↔ IsEvidenceAt (case_of instance.now) counts.now evidence.now) }
{
    match evidence {
        Evidence::Route {
            state,
            caps,
            basis,
            kind,
        } => {
            let own = capacities(alloc, instance.net, counts)?;
            Ok(
                are_caps(caps, own.nums.items())
                    && is_program(instance, *state, basis.items(), kind),
            )
        }
        Evidence::Master { .. } => Ok(false),
    }
}
