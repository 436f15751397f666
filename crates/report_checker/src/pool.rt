ghost use Rattle.std.specs.Prelude.{◌≡◌, ℕ, ◌<◌, ◌≤◌, ◌^◌, ◌↔◌, List, All, IsFalse, IsTrue, OnOk, length, slice_get, Some};
ghost use Rattle.plan_terms.specs.Terms.{graph_in, case_of, Entry as Event, CutLine as Line, AreKept};
ghost use Rattle.plan_report.specs.Terms.{IsCutInForm};
ghost use Rattle.cut_pool.specs.Terms.{cut_of_line, cuts_of};
ghost use Rattle.plan_checker.specs.Terms.{HoldsAt, Tells};
ghost use Rattle.report_checker.specs.Pools.{HoldsBadCut, HoldsPoolCount, HoldsPoolDiffers, IsBadCut};

use net_core::{CutLine, Instance};
use plan_checker::local_cuts::is_kept;
use plan_checker::rights::right_of;
use plan_checker::{Finding, Stop, Test};
use std::alloc::Global;

/// Whether the pool has as many lines as the journal has cuts.
pub fn check_count(lines: u32, cuts: u32) -> Test
    ensures { (entries : List Event) (pool : List Line) → lines ≡ length pool → cuts ≡ length (cuts_of entries) → Tells (HoldsPoolCount entries pool) result }
{
    if lines != cuts {
        return Err(Stop::Found(Finding::PoolCount(lines, cuts)));
    }
    Ok(())
}

/// Whether two lists of lengths are one.
fn are_equal(a: &[u32], b: &[u32]) -> bool
    ensures { IsTrue result ↔ (a.now ≡ b.now) }
{
    a == b
}

/// Whether two lines are of one cut. It compares lengths only where the states are one.
fn is_same_cut(a: &CutLine, b: &CutLine) -> bool
    ensures { IsTrue result ↔ (cut_of_line a.now ≡ cut_of_line b.now) }
{
    a.state == b.state && are_equal(a.lengths.items(), b.lengths.items())
}

/// Whether the cut of line `k` is already that of one of the first lines.
fn stands_before(pool: &[CutLine], k: usize) -> bool
    requires { k < length pool.now }
    ensures { (line : Line) → slice_get pool.now k ≡ Some line
        → IsTrue result ↔ ((j : ℕ) × (j < k) × HoldsAt pool.now j (λ l. cut_of_line l ≡ cut_of_line line)) }
{
    for j in 0..k {
        if is_same_cut(&pool[j], &pool[k]) {
            return true;
        }
    }
    false
}

/// Whether the state of line `k` doesn't keep its lengths, or its cut is already that of an earlier line.
fn is_bad(instance: &Instance, pool: &[CutLine], k: usize) -> bool
    requires inside { k < length pool.now }
    requires form { All (IsCutInForm instance.now.net.now.links instance.now.states.now.listed) pool.now }
    ensures bad { (line : Line) → slice_get pool.now k ≡ Some line → IsTrue result ↔ IsBadCut (case_of instance.now) pool.now k line }
    ensures kept { (line : Line) → slice_get pool.now k ≡ Some line → IsFalse result → AreKept (graph_in (case_of instance.now) line.state.0) line.lengths }
{
    let graph = instance.in_state(pool[k].state);
    !is_kept(&graph, pool[k].lengths.items()) || stands_before(pool, k)
}

/// Whether the lines are cuts of their states, all different. Each is compared with those before it, which takes time in the square
/// of their number, and for lines of one state in their links too. It takes no memory.
pub fn check_cuts(instance: &Instance, pool: &[CutLine]) -> Test
    requires few { length pool.now ≤ 4096 }
    requires form { All (IsCutInForm instance.now.net.now.links instance.now.states.now.listed) pool.now }
    ensures told { Tells (HoldsBadCut (case_of instance.now) pool.now) result }
    ensures kept { OnOk result (All (λ l. AreKept (graph_in (case_of instance.now) l.state.0) l.lengths) pool.now) }
{
    for k in 0..pool.len() {
        if is_bad(instance, pool, k) {
            return Err(Stop::Found(Finding::BadCut(k as u32)));
        }
    }
    Ok(())
}

/// Whether the lines have the right sides of their cuts at the instance's demands. It takes a search from each node for each line,
/// and memory for the distances of all pairs of nodes.
pub fn check_rights(alloc: Global, instance: &Instance, pool: &[CutLine]) -> Test
    requires few { length pool.now ≤ 4096 }
    requires form { All (IsCutInForm instance.now.net.now.links instance.now.states.now.listed) pool.now }
    requires kept { All (λ l. AreKept (graph_in (case_of instance.now) l.state.0) l.lengths) pool.now }
    ensures told { Tells (HoldsPoolDiffers (case_of instance.now) pool.now) result }
{
    for k in 0..pool.len() {
        let line = &pool[k];
        let right = right_of(alloc, instance, line)?;
        if line.right != right {
            return Err(Stop::Found(Finding::PoolDiffers(k as u32, line.right, right)));
        }
    }
    Ok(())
}
