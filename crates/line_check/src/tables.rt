ghost use Rattle.std.{specs.Prelude.{◌≡◌, ◌↔◌, ℕ, ◌<◌, ◌≤◌, IfOk, IsTrue, MatchOption, false, length, map, zip}, specs.List.range_with_len};
ghost use Rattle.plan_terms.specs.Terms.{case_of, fails};
ghost use Rattle.line_check.{specs.Inequalities.{need_of, table_of}, specs.Lines.{AreKinds, IsFailedWeight, IsSpared, IsTableOver, IsTableRight, IsWeightWithout, capped, weight_of}, specs.inner.Tables.{AreLeast, GivesOn}, specs.declared.line.TableKind.TheVariants.Failing};

use crate::inequality::Inequality;
use crate::kinds::{capped, kinds_of};
use crate::least_weights;
use crate::line::TableKind;
use net_core::{Instance, Link, LinkId, List, NoMemory, StateId, States};
use std::alloc::Global;

/// What a table line may need at most.
const MOST_NEED: u128 = 4096;

/// The weight of a kind; 0 where it isn't there.
fn weight_of(kinds: &[u32], weights: &[u32], n: u32) -> u32
    requires { length weights.now ≡ length kinds.now }
    ensures { result ≡ weight_of (zip kinds.now weights.now) n }
{
    for k in 0..kinds.len() {
        if kinds[k] == n {
            return weights[k];
        }
    }
    0
}

/// The weights of the modules of a link, by their kinds.
fn link_coefs(
    alloc: Global,
    over: &Inequality,
    need: u32,
    kinds: &[u32],
    weights: &[u32],
    e: usize,
    modules: usize,
) -> Result<List<u128>, NoMemory>
    requires need { need ≡ need_of over.now }
    requires paired { length weights.now ≡ length kinds.now }
    ensures { IfOk result (λ coefs. coefs ≡ map (λ m. weight_of (zip kinds.now weights.now) (capped over.now e m)) (range_with_len 0 modules)) }
{
    let mut coefs = List::new(alloc);
    for m in 0..modules {
        let weight = weight_of(kinds, weights, capped(over, need, e, m));
        coefs.push(weight as u128)?;
    }
    Ok(coefs)
}

/// The weights of all modules, by their kinds.
fn all_coefs(
    alloc: Global,
    links: &[Link],
    over: &Inequality,
    need: u32,
    kinds: &[u32],
    weights: &[u32],
) -> Result<List<List<u128>>, NoMemory>
    requires need { need ≡ need_of over.now }
    requires paired { length weights.now ≡ length kinds.now }
    ensures { IfOk result (λ coefs. coefs ≡ table_of links.now (λ e m. weight_of (zip kinds.now weights.now) (capped over.now e m))) }
{
    let mut coefs = List::new(alloc);
    for e in 0..links.len() {
        let modules = links[e].modules.len();
        coefs.push(link_coefs(alloc, over, need, kinds, weights, e, modules)?)?;
    }
    Ok(coefs)
}

/// Whether some of the first modules of a link gives what a kind does.
fn gives_on(over: &Inequality, need: u32, e: usize, modules: usize, kind: u32) -> bool
    requires { need ≡ need_of over.now }
    ensures { IsTrue result ↔ GivesOn over.now e modules kind }
{
    for m in 0..modules {
        if capped(over, need, e, m) == kind {
            return true;
        }
    }
    false
}

/// Whether no state fails the link.
fn never_fails(states: &States, link: LinkId) -> bool
    ensures { IsTrue result ↔ ((s : ℕ) → fails states.now.listed s link.0 ≡ false) }
{
    for s in 0..states.count() {
        if states.fails(StateId(s), link) {
            return false;
        }
    }
    true
}

/// Whether some module of a link gives what a kind does, and no state fails the link.
fn is_spared_on(
    states: &States,
    over: &Inequality,
    need: u32,
    kind: u32,
    e: u32,
    modules: usize,
) -> bool
    requires { need ≡ need_of over.now }
    ensures { IsTrue result ↔ (GivesOn over.now e modules kind × ((s : ℕ) → fails states.now.listed s e ≡ false)) }
{
    gives_on(over, need, e as usize, modules, kind) && never_fails(states, LinkId(e))
}

/// Whether a module of a kind lies on a link that no state fails.
fn is_spared(instance: &Instance, over: &Inequality, need: u32, kind: u32) -> bool
    requires { need ≡ need_of over.now }
    ensures { IsTrue result ↔ IsSpared (case_of instance.now) over.now kind }
{
    let links = instance.net.links().items();
    for e in 0..links.len() {
        let modules = links[e].modules.len();
        if is_spared_on(instance.states, over, need, kind, e as u32, modules) {
            return true;
        }
    }
    false
}

/// What the failed module of a kind weighs.
fn failed_weight(instance: &Instance, over: &Inequality, need: u32, kind: u32, weight: u32) -> u32
    requires { need ≡ need_of over.now }
    ensures { IsFailedWeight (case_of instance.now) over.now kind weight result }
{
    if is_spared(instance, over, need, kind) {
        0
    } else {
        weight
    }
}

/// What is weighed at least where a module of the kind of place `k` fails, and no greater kind is used.
fn weight_without(
    instance: &Instance,
    over: &Inequality,
    need: u32,
    kinds: &[u32],
    weights: &[u32],
    least: &[u64],
    k: usize,
) -> u128
    requires need { need ≡ need_of over.now }
    requires paired { length weights.now ≡ length kinds.now }
    requires least { AreLeast kinds.now weights.now need least.now }
    requires inside { k < length kinds.now }
    ensures { IsWeightWithout (case_of instance.now) over.now kinds.now weights.now k result }
{
    let failed = failed_weight(instance, over, need, kinds[k], weights[k]);
    failed as u128 + least[k] as u128
}

/// The right side of a failing table line.
fn failing_right(
    instance: &Instance,
    over: &Inequality,
    need: u32,
    kinds: &[u32],
    weights: &[u32],
    least: &[u64],
) -> u128
    requires need { need ≡ need_of over.now }
    requires paired { length weights.now ≡ length kinds.now }
    requires least { AreLeast kinds.now weights.now need least.now }
    requires some { 0 < length kinds.now }
    ensures { IsTableRight (case_of instance.now) over.now kinds.now weights.now Failing result }
{
    let mut right = weight_without(instance, over, need, kinds, weights, least, 0);
    for k in 1..kinds.len() {
        right = right.min(weight_without(instance, over, need, kinds, weights, least, k));
    }
    right
}

/// The right side of a table line.
fn table_right(
    instance: &Instance,
    over: &Inequality,
    need: u32,
    kind: TableKind,
    kinds: &[u32],
    weights: &[u32],
    least: &[u64],
) -> u128
    requires need { need ≡ need_of over.now }
    requires paired { length weights.now ≡ length kinds.now }
    requires least { AreLeast kinds.now weights.now need least.now }
    requires some { 0 < length kinds.now }
    ensures { IsTableRight (case_of instance.now) over.now kinds.now weights.now kind result }
{
    match kind {
        TableKind::Plain => least[kinds.len() - 1] as u128,
        TableKind::Failing => failing_right(instance, over, need, kinds, weights, least),
    }
}

/// Whether there are kinds, and one weight for each.
fn are_paired(kinds: &[u32], weights: &[u32]) -> bool
    ensures { IsTrue result ↔ ((0 < length kinds.now) × (length weights.now ≡ length kinds.now)) }
{
    kinds.len() > 0 && weights.len() == kinds.len()
}

/// The table line over a line, of its kinds with their weights.
fn line_by_kinds(
    alloc: Global,
    instance: &Instance,
    over: &Inequality,
    need: u32,
    kind: TableKind,
    kinds: &[u32],
    weights: &[u32],
) -> Result<Inequality, NoMemory>
    requires need { need ≡ need_of over.now }
    requires needed { 0 < need }
    requires few { need ≤ 4096 }
    requires paired { length weights.now ≡ length kinds.now }
    requires some { 0 < length kinds.now }
    requires are { AreKinds (case_of instance.now).links over.now kinds.now }
    ensures { IfOk result (IsTableOver (case_of instance.now) over.now kind weights.now) }
{
    let least = least_weights(alloc, kinds, weights, need)?;
    let right = table_right(instance, over, need, kind, kinds, weights, least.items());
    let links = instance.net.links().items();
    Ok(Inequality {
        coefs: all_coefs(alloc, links, over, need, kinds, weights)?,
        given: 0,
        right,
    })
}

/// The table line over a line; none where what it needs isn't from 1 to 4,096, or there isn't one weight for each kind of module.
pub(crate) fn table_line(
    alloc: Global,
    instance: &Instance,
    over: &Inequality,
    kind: TableKind,
    weights: &[u32],
) -> Result<Option<Inequality>, NoMemory>
    ensures { IfOk result (λ o. MatchOption o ((made : Inequality) → IsTableOver (case_of instance.now) over.now kind weights.now made → ⊥)
        (IsTableOver (case_of instance.now) over.now kind weights.now)) }
{
    let wide = over.right.saturating_sub(over.given);
    if wide == 0 || MOST_NEED < wide {
        return Ok(None);
    }
    let need = wide as u32;
    let links = instance.net.links().items();
    let kinds = kinds_of(alloc, links, over, need)?;
    if !are_paired(kinds.items(), weights) {
        return Ok(None);
    }
    let line = line_by_kinds(alloc, instance, over, need, kind, kinds.items(), weights)?;
    Ok(Some(line))
}
