ghost use Rattle.std.specs.Prelude.{◌≡◌, All, IfOk, map};
ghost use Rattle.cut_pool.{specs.Pools.line_of_pooled, specs.inner.Pooling.StandsAmong};

use crate::pooled_cut::PooledCut;
use net_core::{CutLine, Demands, List, NoMemory};
use rayon::prelude::*;
use std::alloc::Global;
use std::thread::Threads;

/// The number of cuts that are worth a thread of their own.
const CUTS_OF_A_THREAD: usize = 64;

/// The right sides of the pool's cuts, in its order, each summed anew from the demands. Threads share the cuts.
pub fn rights_of<R: Threads + Sync>(
    rt: &R,
    alloc: Global,
    pool: &[PooledCut],
    demands: &Demands,
) -> Result<List<u128>, NoMemory>
    requires { All (StandsAmong demands.now) pool.now }
    ensures { IfOk result (λ rights. rights ≡ map (λ c. c.right) pool.now) }
{
    let summed = |c: &PooledCut| -> u128
        requires { StandsAmong demands.now c.now }
        ensures { result ≡ c.now.right }
    { c.summed(demands) };
    let rights: Vec<u128> = pool
        .par_iter()
        .with_min_len(CUTS_OF_A_THREAD)
        .map(summed)
        .collect(rt, alloc)?;
    Ok(List::from_vec(rights))
}

/// The lines of the pool, with these right sides, which are its own.
pub fn lines_with(
    alloc: Global,
    pool: &[PooledCut],
    rights: &[u128],
) -> Result<List<CutLine>, NoMemory>
    requires { rights.now ≡ map (λ c. c.right) pool.now }
    ensures { IfOk result (λ lines. lines ≡ map line_of_pooled pool.now) }
{
    let mut lines = List::new(alloc);
    for k in 0..pool.len() {
        lines.push(pool[k].line(rights[k])?)?;
    }
    Ok(lines)
}
