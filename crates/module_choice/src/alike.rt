ghost use Rattle.std.specs.Prelude.{◌≡◌, ℕ, ◌-◌, ◌*◌, ◌^◌, ◌<◌, ◌≤◌, ◌↔◌, [], All, IfOk, OnOk, IsTrue, List as Seq, Some, length, slice_get, slice_index};
ghost use Rattle.plan_terms.specs.Terms.{IsModule, Link as L, Module as M};
ghost use Rattle.module_choice.{specs.Coverings.CoverNeeds, specs.inner.Routes.{AlikeAreCovered, AreCovered, HasEarlier}, specs.inner.Tables.{Answers, IsTable}};

use crate::covers::cover_by;
use crate::tables::{MOST_STEPS, Table, capacity_divisor, table_for};
use net_core::{Counts, Link, List, Module, Network, NoMemory};
use std::alloc::Global;

/// What each link needs beyond its pre-installed capacity, in units of the network.
fn needs_of(alloc: Global, links: &[Link], peaks: &[u64]) -> Result<List<u64>, NoMemory>
    requires size { length peaks.now ≡ length links.now }
    ensures count { IfOk result (λ needs. length needs ≡ length links.now) }
    ensures each { IfOk result (λ needs. (e : ℕ) (l : L) → slice_get links.now e ≡ Some l → slice_index needs e ≡ slice_index peaks.now e - l.fixed) }
{
    let mut needs = List::new(alloc);
    for e in 0..links.len() {
        needs.push(peaks[e].saturating_sub(links[e].fixed))?;
    }
    Ok(needs)
}

/// Whether the link has these modules.
fn has_modules(l: &Link, modules: &[Module]) -> bool
    ensures { IsTrue result ↔ (l.now.modules ≡ modules.now) }
{
    l.modules.items() == modules
}

/// Whether an earlier link has the modules of this one.
fn has_earlier(links: &[Link], at: usize) -> bool
    requires { at < length links.now }
    ensures { IsTrue result ↔ HasEarlier links.now at }
{
    for e in 0..at {
        if has_modules(&links[e], links[at].modules.items()) {
            return true;
        }
    }
    false
}

/// The greatest need, up to a limit, of the links with these modules.
fn greatest_need(links: &[Link], needs: &[u64], modules: &[Module], limit: u64) -> u64
    requires { length needs.now ≡ length links.now }
    ensures reached { (e : ℕ) (l : L) → slice_get links.now e ≡ Some l → l.modules ≡ modules.now → slice_index needs.now e ≤ limit
        → slice_index needs.now e ≤ result }
    ensures limit { result ≤ limit }
{
    let mut greatest = 0;
    for e in 0..links.len() {
        if needs[e] <= limit && has_modules(&links[e], modules) {
            greatest = needs[e].max(greatest);
        }
    }
    greatest
}

/// Covers the need of each link that has the table's modules, and leaves the counts of the others.
fn cover_by_table(
    alloc: Global,
    links: &[Link],
    needs: &[u64],
    modules: &[Module],
    table: &Table,
    counts: &mut [List<u64>],
) -> Result<(), NoMemory>
    requires sizes { (length needs.now ≡ length links.now) × (length counts.old ≡ length links.now) }
    requires each { All IsModule modules.now }
    requires small { All (λ n. n < 2 ^ 44) needs.now }
    requires served { (e : ℕ) (l : L) → slice_get links.now e ≡ Some l → l.modules ≡ [] → slice_index needs.now e ≡ 0 }
    requires table { IsTable modules.now table.now }
    requires answers { (e : ℕ) (l : L) → slice_get links.now e ≡ Some l → l.modules ≡ modules.now → Answers table.now (slice_index needs.now e) }
    ensures count { length counts.new ≡ length counts.old }
    ensures these { OnOk result (AlikeAreCovered links.now needs.now counts.new modules.now) }
    ensures others { (modules : Seq M) → AlikeAreCovered links.now needs.now counts.old modules → AlikeAreCovered links.now needs.now counts.new modules }
{
    for e in 0..links.len() {
        if has_modules(&links[e], modules) {
            counts[e] = cover_by(alloc, modules, table, needs[e])?;
        }
    }
    Ok(())
}

/// Covers the need of each link that has the modules of this one. Their table is made for the greatest of their needs that is few enough
/// steps, and there is one table at a time.
fn cover_alike(
    alloc: Global,
    links: &[Link],
    needs: &[u64],
    modules: &[Module],
    counts: &mut [List<u64>],
) -> Result<(), NoMemory>
    requires sizes { (length needs.now ≡ length links.now) × (length counts.old ≡ length links.now) }
    requires kinds { length modules.now ≤ 16 }
    requires each { All IsModule modules.now }
    requires small { All (λ n. n < 2 ^ 44) needs.now }
    requires served { (e : ℕ) (l : L) → slice_get links.now e ≡ Some l → l.modules ≡ [] → slice_index needs.now e ≡ 0 }
    ensures count { length counts.new ≡ length counts.old }
    ensures these { OnOk result (AlikeAreCovered links.now needs.now counts.new modules.now) }
    ensures others { (modules : Seq M) → AlikeAreCovered links.now needs.now counts.old modules → AlikeAreCovered links.now needs.now counts.new modules }
{
    let step = capacity_divisor(modules);
    let need = greatest_need(links, needs, modules, MOST_STEPS * step);
    let table = table_for(alloc, modules, step, need)?;
    cover_by_table(alloc, links, needs, modules, &table, counts)
}

/// No counts yet for each of this number of links.
fn no_counts(alloc: Global, links: usize) -> Result<Counts, NoMemory>
    ensures { IfOk result (λ counts. length counts ≡ links) }
{
    let mut counts = List::new(alloc);
    for _ in 0..links {
        counts.push(List::new(alloc))?;
    }
    Ok(counts)
}

/// Counts that cover each need. Links with the same modules share one table.
fn cover_each(alloc: Global, links: &[Link], needs: &[u64]) -> Result<Counts, NoMemory>
    requires size { length needs.now ≡ length links.now }
    requires each { All (λ l. (length l.modules ≤ 16) × All IsModule l.modules) links.now }
    requires small { All (λ n. n < 2 ^ 44) needs.now }
    requires served { (e : ℕ) (l : L) → slice_get links.now e ≡ Some l → l.modules ≡ [] → slice_index needs.now e ≡ 0 }
    ensures { IfOk result (CoverNeeds links.now needs.now) }
{
    let mut counts = no_counts(alloc, links.len())?;
    for e in 0..links.len() {
        if !has_earlier(links, e) {
            let modules = links[e].modules.items();
            cover_alike(alloc, links, needs, modules, counts.items_mut())?;
        }
    }
    Ok(counts)
}

/// Counts that cover the greatest load of each link less its pre-installed capacity.
pub(crate) fn cover_links(alloc: Global, links: &[Link], peaks: &[u64]) -> Result<Counts, NoMemory>
    requires size { length peaks.now ≡ length links.now }
    requires each { All (λ l. (length l.modules ≤ 16) × All IsModule l.modules) links.now }
    requires small { All (λ n. n < 2 ^ 44) peaks.now }
    requires served { (e : ℕ) (l : L) → slice_get links.now e ≡ Some l → l.modules ≡ [] → slice_index peaks.now e ≤ l.fixed }
    ensures { IfOk result (AreCovered links.now (slice_index peaks.now)) }
{
    let needs = needs_of(alloc, links, peaks)?;
    cover_each(alloc, links, needs.items())
}

/// Counts of modules that cover what each link needs, in units of the network, as `cover` does. Links with the same modules share
/// one table, whatever their setups are, so it takes time and memory for each different list of modules.
///
/// With needs of 180 and 700 on two links, both with modules of 155 for 100 and of 622 for 250, the first link gets two of the first
/// module, and the second one of each.
pub fn cover_needs(alloc: Global, net: &Network, needs: &List<u64>) -> Result<Counts, NoMemory>
    requires size { length needs.now ≡ length net.now.links }
    requires small { All (λ n. n < 2 ^ 44) needs.now }
    requires served { (e : ℕ) (l : L) → slice_get net.now.links e ≡ Some l → l.modules ≡ [] → slice_index needs.now e ≡ 0 }
    ensures { IfOk result (CoverNeeds net.now.links needs.now) }
{
    cover_each(alloc, net.links().items(), needs.items())
}
