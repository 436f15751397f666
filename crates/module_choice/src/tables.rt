ghost use Rattle.std.{specs.Prelude.{◌≡◌, ℕ, ◌+◌, ◌-◌, ◌*◌, ◌^◌, ◌<◌, ◌≤◌, ◌⊎◌, All, IfOk, Some, length, map, replicate, slice_get}, specs.Int.◌∣◌};
ghost use Rattle.plan_terms.specs.Terms.{IsModule, IsGreatestDivisor};
ghost use Rattle.module_choice.{specs.declared.tables.Entry.{Entry as E}, specs.inner.Tables.{Answers, AreLeastCosts, AreTaken, IsNextEntry, IsTable, in_units}};

use checked_fraction::gcd;
use net_core::{List, Module, NoMemory};
use std::alloc::Global;

/// The greatest need, in steps, that is answered from a table.
pub(crate) const MOST_STEPS: u64 = 100000;

/// The least cost to reach a number of steps, in units of the network, and the kind of a module with which it is reached.
#[derive(Clone, Copy)]
pub(crate) struct Entry {
    pub cost: u64,
    pub kind: usize,
}

/// The least costs of a link's modules to reach 0, 1, 2 and more steps.
#[derive(Drop)]
pub(crate) struct Table {
    /// The greatest common divisor of the modules' capacities, in units of the network.
    pub step: u64,
    /// The modules, with their capacities in steps.
    pub modules: List<Module>,
    /// One for each number of steps.
    pub entries: List<Entry>,
}

/// The greatest common divisor of modules' capacities. That of none is 0.
pub(crate) fn capacity_divisor(modules: &[Module]) -> u64
    requires { All IsModule modules.now }
    ensures divisor { IsGreatestDivisor (map (λ m. m.capacity) modules.now) result }
    ensures small { result < 2 ^ 40 }
{
    let mut common = 0;
    for m in modules {
        common = gcd(common, m.capacity as u128);
    }
    common as u64
}

/// The module with its capacity in steps.
fn in_steps(m: &Module, step: u64) -> Module
    requires sound { IsModule m.now }
    requires divides { step ∣ m.now.capacity }
    ensures capacity { m.now.capacity ≡ step * result.capacity }
    ensures cost { m.now.cost ≡ result.cost }
    ensures sound { IsModule result }
{
    Module {
        capacity: m.capacity / step,
        cost: m.cost,
    }
}

/// The modules with their capacities in steps.
fn all_in_steps(alloc: Global, modules: &[Module], step: u64) -> Result<List<Module>, NoMemory>
    requires sound { All IsModule modules.now }
    requires divides { All (λ m. step ∣ m.capacity) modules.now }
    ensures count { IfOk result (λ scaled. length scaled ≡ length modules.now) }
    ensures scaled { IfOk result (λ scaled. modules.now ≡ in_units step scaled) }
    ensures sound { IfOk result (All IsModule) }
{
    let mut scaled = List::new(alloc);
    for m in modules {
        scaled.push(in_steps(m, step))?;
    }
    Ok(scaled)
}

/// The cost of one module, and of those for the steps that it leaves of one more than the table has.
fn cost_with(m: &Module, entries: &[Entry]) -> u64
    requires sound { IsModule m.now }
    requires some { 0 < length entries.now }
    requires few { length entries.now ≤ 100000 }
    requires small { (n : ℕ) (x : E) → slice_get entries.now n ≡ Some x → x.cost ≤ n * 2 ^ 40 }
    ensures { (x : E) → slice_get entries.now (length entries.now - m.now.capacity) ≡ Some x → result ≡ m.now.cost + x.cost }
{
    let left = entries.len().saturating_sub(m.capacity as usize);
    m.cost + entries[left].cost
}

/// The cheaper one; the first at a tie.
fn cheaper(first: Entry, second: Entry) -> Entry
    ensures one { (result ≡ first) ⊎ (result ≡ second) }
    ensures least { (result.cost ≤ first.cost) × (result.cost ≤ second.cost) }
{
    if second.cost < first.cost {
        second
    } else {
        first
    }
}

/// The entry for one step more than the table has.
fn next_entry(modules: &[Module], entries: &[Entry]) -> Entry
    requires modules { 0 < length modules.now }
    requires sound { All IsModule modules.now }
    requires some { 0 < length entries.now }
    requires few { length entries.now ≤ 100000 }
    requires small { (n : ℕ) (x : E) → slice_get entries.now n ≡ Some x → x.cost ≤ n * 2 ^ 40 }
    ensures { IsNextEntry modules.now entries.now result }
{
    let mut best = Entry {
        cost: cost_with(&modules[0], entries),
        kind: 0,
    };
    for kind in 1..modules.len() {
        let cost = cost_with(&modules[kind], entries);
        best = cheaper(best, Entry { cost, kind });
    }
    best
}

/// The least costs to reach each number of steps up to this one.
fn least_costs(alloc: Global, modules: &[Module], steps: usize) -> Result<List<Entry>, NoMemory>
    requires sound { All IsModule modules.now }
    requires some { 0 < steps → 0 < length modules.now }
    requires few { steps ≤ 100000 }
    ensures least { IfOk result (AreLeastCosts modules.now) }
    ensures count { IfOk result (λ entries. length entries ≡ steps + 1) }
{
    let mut entries = List::from_vec(Vec::with_capacity(alloc, steps + 1)?);
    entries.push(Entry { cost: 0, kind: 0 })?;
    for _ in 0..steps {
        let next = next_entry(modules, entries.items());
        entries.push(next)?;
    }
    Ok(entries)
}

/// Takes modules of each kind that reach this number of steps, from the last entry back to the first.
fn take_modules(modules: &[Module], entries: &[Entry], steps: usize, counts: &mut [u64])
    requires kinds { length modules.now ≤ 16 }
    requires sound { All IsModule modules.now }
    requires least { AreLeastCosts modules.now entries.now }
    requires inside { steps < length entries.now }
    requires few { steps ≤ 100000 }
    requires none { counts.old ≡ replicate (length modules.now) 0 }
    ensures { (x : E) → slice_get entries.now steps ≡ Some x → AreTaken modules.now steps x.cost counts.new }
{
    let mut left = steps;
    while left > 0 {
        let kind = entries[left].kind;
        counts[kind] += 1;
        left = left.saturating_sub(modules[kind].capacity as usize);
    }
}

/// How many modules of each kind reach this number of steps at the least cost.
pub(crate) fn counts_for(
    alloc: Global,
    modules: &[Module],
    entries: &[Entry],
    steps: usize,
) -> Result<List<u64>, NoMemory>
    requires kinds { length modules.now ≤ 16 }
    requires sound { All IsModule modules.now }
    requires least { AreLeastCosts modules.now entries.now }
    requires inside { steps < length entries.now }
    requires few { steps ≤ 100000 }
    ensures { IfOk result (λ c. (x : E) → slice_get entries.now steps ≡ Some x → AreTaken modules.now steps x.cost c) }
{
    let mut counts = List::filled(alloc, 0, modules.len())?;
    take_modules(modules, entries, steps, counts.items_mut());
    Ok(counts)
}

/// How many steps reach the need, where they are at most 100,000; else 0.
pub(crate) fn few_steps(step: u64, need: u64) -> usize
    requires { step < 2 ^ 40 }
    ensures few { result ≤ 100000 }
    ensures some { 0 < result → 0 < step }
    ensures reached { need ≤ 100000 * step → need ≤ step * result }
    ensures least { (n : ℕ) → need ≤ step * n → result ≤ n }
{
    if need == 0 || need > MOST_STEPS * step {
        return 0;
    }
    need.div_ceil(step) as usize
}

/// A table of the modules that answers this need, and each smaller one, where it is few steps.
pub(crate) fn table_for(
    alloc: Global,
    modules: &[Module],
    step: u64,
    need: u64,
) -> Result<Table, NoMemory>
    requires kinds { length modules.now ≤ 16 }
    requires sound { All IsModule modules.now }
    requires divisor { IsGreatestDivisor (map (λ m. m.capacity) modules.now) step }
    requires small { step < 2 ^ 40 }
    ensures table { IfOk result (IsTable modules.now) }
    ensures step { IfOk result (λ t. t.step ≡ step) }
    ensures answers { IfOk result (λ t. Answers t need) }
{
    let scaled = all_in_steps(alloc, modules, step)?;
    let entries = least_costs(alloc, scaled.items(), few_steps(step, need))?;
    Ok(Table {
        step,
        modules: scaled,
        entries,
    })
}
