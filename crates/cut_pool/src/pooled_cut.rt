ghost use Rattle.std.specs.Prelude.{◌≡◌, ◌<◌, ◌^◌, All, IfOk, length, map, position};
ghost use Rattle.plan_terms.specs.Terms.{Pooled};
ghost use Rattle.cut_pool.{specs.Pools.line_of_pooled, specs.inner.Pooling.{CanFollow, IsSomeCut, StandsAmong, followed, is_pooled_cut}, specs.inner.Shares.{IsShareOfDemand, asked_by}};

use crate::shares::{DemandShare, NeedChange};
use metric_cut::Cut;
use net_core::{Copied, CutLine, Demands, Entry, List, NoMemory};
use std::alloc::Global;

/// A cut of the pool, with its right side at the demands now.
#[derive(Drop)]
pub struct PooledCut {
    pub cut: Cut,
    pub right: u128,
}

impl PooledCut {
    /// What a share asks for: its need times the distance of its ends, and 0 where they are apart.
    fn asked(&self, share: Option<DemandShare>) -> u128
        requires cut { IsSomeCut self.now.cut }
        requires share { IsShareOfDemand self.now.cut.table.nodes share }
        ensures value { result ≡ asked_by self.now.cut.table share }
        ensures low { result < 2 ^ 104 }
    {
        let Some(DemandShare { from, to, need }) = share else {
            return 0;
        };
        need as u128 * self.cut.distance(from, to).unwrap_or(0) as u128
    }

    /// Takes off what the share before asks for, and adds what the share after does.
    fn follow(&mut self, change: &NeedChange)
        requires { CanFollow change.now self.old }
        ensures { self.new ≡ followed change.now self.old }
    {
        let taken = self.asked(change.before);
        let added = self.asked(change.after);
        self.right = self.right - taken + added;
    }

    /// The right side, summed anew from the demands.
    pub fn summed(&self, demands: &Demands) -> u128
        requires { StandsAmong demands.now self.now }
        ensures { result ≡ self.now.right }
    {
        self.cut.right(demands)
    }

    /// Whether this is the cut. Lengths are compared in one state alone.
    fn is(&self, cut: &Cut) -> bool
        ensures { result ≡ is_pooled_cut cut.now self.now }
    {
        self.cut.state() == cut.state() && self.cut.lengths().items() == cut.lengths().items()
    }

    /// Its entry in a history, where it has this index.
    pub fn entry(&self, index: u32) -> Result<Entry, NoMemory>
        ensures { IfOk result (λ e. e ≡ Pooled index self.now.cut.state self.now.cut.lengths) }
    {
        Ok(Entry::Pooled {
            index,
            state: self.cut.state(),
            lengths: self.cut.lengths().copy()?,
        })
    }

    /// Its line, with this right side, which is its own.
    pub fn line(&self, right: u128) -> Result<CutLine, NoMemory>
        requires { right ≡ self.now.right }
        ensures { IfOk result (λ line. line ≡ line_of_pooled self.now) }
    {
        Ok(CutLine {
            state: self.cut.state(),
            lengths: self.cut.lengths().copy()?,
            right,
        })
    }
}

/// The place of a cut in the pool.
pub fn place_of(pool: &[PooledCut], cut: &Cut) -> Option<usize>
    ensures { result ≡ position (is_pooled_cut cut.now) pool.now }
{
    pool.iter().position(|pooled| pooled.is(cut))
}

/// Each right side follows.
fn follow_each(pool: &mut [PooledCut], change: &NeedChange)
    requires { All (CanFollow change.now) pool.old }
    ensures { pool.new ≡ map (followed change.now) pool.old }
{
    for k in 0..pool.len() {
        pool[k].follow(change);
    }
}

/// Each right side of the pool follows; where the shares are the same, none is touched.
pub fn follow_all(pool: &mut List<PooledCut>, change: &NeedChange)
    requires { All (CanFollow change.now) pool.old }
    ensures { pool.new ≡ map (followed change.now) pool.old }
{
    if !change.is_none() {
        follow_each(pool.items_mut(), change);
    }
}

/// The lines of the pool.
pub fn lines_of(alloc: Global, pool: &[PooledCut]) -> Result<List<CutLine>, NoMemory>
    ensures { IfOk result (λ lines. lines ≡ map line_of_pooled pool.now) }
{
    let mut lines = List::new(alloc);
    for pooled in pool {
        lines.push(pooled.line(pooled.right)?)?;
    }
    Ok(lines)
}
