ghost use Rattle.std.specs.Prelude.{◌≡◌, ℕ, ◌*◌, ◌^◌, ◌<◌, ◌≤◌, All, IfOk, [], length, replicate, slice_set};
ghost use Rattle.plan_terms.specs.Terms.{IsModule, IsFewSteps};
ghost use Rattle.module_choice.{specs.Coverings.IsCovering, specs.inner.Cheapest.AreCheapest, specs.inner.Kinds.IsBestKind, specs.inner.Tables.{Answers, IsTable}};

use crate::tables::{MOST_STEPS, Table, capacity_divisor, counts_for, few_steps, table_for};
use crate::totals::link_cost;
use net_core::{Link, List, Module, NoMemory};
use std::alloc::Global;

/// Counts of a link's modules, and their cost.
#[derive(Drop)]
pub struct Covering {
    /// One count for each module of the link.
    pub counts: List<u64>,
    /// What they cost with the setup of the link, in units of the network.
    pub cost: u128,
}

/// A kind of module by its place, and how many of them.
#[derive(Clone, Copy)]
pub(crate) struct Kind {
    pub at: usize,
    pub count: u64,
}

/// How many modules of a capacity reach a need.
fn count_for(capacity: u64, need: u64) -> u64
    requires { 0 < capacity }
    ensures enough { need ≤ capacity * result }
    ensures least { (c : ℕ) → need ≤ capacity * c → result ≤ c }
{
    need.div_ceil(capacity)
}

/// The cost of this number of modules.
fn cost_of(m: &Module, count: u64) -> u128
    ensures { result ≡ m.now.cost * count }
{
    m.cost as u128 * count as u128
}

/// The first kind of module that reaches the need at least cost, and how many of them.
fn best_kind(modules: &[Module], need: u64) -> Kind
    requires some { 0 < length modules.now }
    requires each { All IsModule modules.now }
    ensures best { IsBestKind modules.now need result }
    ensures inside { result.at < length modules.now }
{
    let mut best = Kind {
        at: 0,
        count: count_for(modules[0].capacity, need),
    };
    for at in 1..modules.len() {
        let count = count_for(modules[at].capacity, need);
        if cost_of(&modules[at], count) < cost_of(&modules[best.at], best.count) {
            best = Kind { at, count };
        }
    }
    best
}

/// A number of modules of one kind, and none of the others.
fn one_kind(alloc: Global, kinds: usize, kind: Kind) -> Result<List<u64>, NoMemory>
    requires { kind.at < kinds }
    ensures { IfOk result (λ c. c ≡ slice_set (replicate kinds 0) kind.at kind.count) }
{
    let mut counts = vec![in alloc; 0; kinds]?;
    counts[kind.at] = kind.count;
    Ok(List::from_vec(counts))
}

/// The cheapest counts of one kind of module that reach a need of more than few steps.
fn cover_by_kind(alloc: Global, modules: &[Module], need: u64) -> Result<List<u64>, NoMemory>
    requires some { 0 < length modules.now }
    requires each { All IsModule modules.now }
    requires needed { 0 < need }
    requires limit { need < 2 ^ 44 }
    requires many { IsFewSteps modules.now need → ⊥ }
    ensures { IfOk result (AreCheapest modules.now need) }
{
    one_kind(alloc, modules.len(), best_kind(modules, need))
}

/// Counts of modules that cover a need: by their table where it is few steps, else by one kind.
pub(crate) fn cover_by(
    alloc: Global,
    modules: &[Module],
    table: &Table,
    need: u64,
) -> Result<List<u64>, NoMemory>
    requires each { All IsModule modules.now }
    requires limit { need < 2 ^ 44 }
    requires served { modules.now ≡ [] → need ≡ 0 }
    requires table { IsTable modules.now table.now }
    requires answers { Answers table.now need }
    ensures { IfOk result (AreCheapest modules.now need) }
{
    if need > MOST_STEPS * table.step {
        return cover_by_kind(alloc, modules, need);
    }
    let steps = few_steps(table.step, need);
    counts_for(alloc, table.modules.items(), table.entries.items(), steps)
}

/// Counts of the link's modules that cover a need, in units of the network: the cheapest of all counts that reach it, where the
/// need is at most 100,000 steps of the greatest common divisor of the modules' capacities, and the cheapest of one kind beyond
/// that. Where something is needed, the link's setup is part of the cost. It takes memory for each step, and time for each step
/// and module.
///
/// Modules of 155 for 100 and of 622 for 250, and a setup of 30: a need of 700 is covered by one of each for 380, since two of
/// the second would cost 530 and five of the first as much; a need of 180 by two of the first for 230; no need by none for 0.
pub fn cover(alloc: Global, link: &Link, need: u64) -> Result<Covering, NoMemory>
    requires few { length link.now.modules ≤ 16 }
    requires each { All IsModule link.now.modules }
    requires limit { need < 2 ^ 44 }
    requires served { link.now.modules ≡ [] → need ≡ 0 }
    ensures { IfOk result (IsCovering link.now need) }
{
    let modules = link.modules.items();
    let table = table_for(alloc, modules, capacity_divisor(modules), need)?;
    let counts = cover_by(alloc, modules, &table, need)?;
    let cost = link_cost(link, counts.items());
    Ok(Covering { counts, cost })
}
