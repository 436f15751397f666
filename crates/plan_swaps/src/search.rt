ghost use Rattle.std.specs.Prelude.{IfOk, IsTrue};
ghost use Rattle.plan_terms.specs.Terms.{case_of, AreCounts, AreWithinLimits, IsSurvivable, capacities};
ghost use Rattle.trim_plan.specs.Terms.{AreRoutingsWithin, IsTestOf};

use crate::refusals::Refusals;
use able_counts::{AbleTest, Stop};
use net_core::{Counts, Instance, Link, NoMemory};
use trim_plan::Place;

/// A test of counts, the cuts that are known, and how much may still be asked.
#[derive(Drop)]
pub struct Search {
    pub test: AbleTest,
    pub refusals: Refusals,
    /// What is left of the budget. An ask of the test takes ten of it, and a look at the known cuts one.
    pub asks: u64,
}

impl Search {
    /// Whether counts are known to carry the demands in each state; if so, the test's routings are within them. If a cut says that they
    /// don't, it is added to the known ones.
    pub(crate) fn carries(&mut self, instance: &Instance, counts: &Counts) -> Result<bool, NoMemory>
        requires survivable { IsSurvivable (case_of instance.now) }
        requires sound { IsTestOf (case_of instance.now) self.old.test }
        requires shape { AreCounts instance.now.net.now.links counts.now }
        requires limits { AreWithinLimits instance.now.net.now.links counts.now }
        ensures sound { IsTestOf (case_of instance.now) self.new.test }
        ensures carried { IfOk result (λ b. IsTrue b
            → AreRoutingsWithin (case_of instance.now) (capacities instance.now.net.now.links counts.now)
            self.new.test.routings) }
    {
        self.asks = self.asks.saturating_sub(10);
        match self.test.stop(instance, counts)? {
            None => Ok(true),
            Some(Stop::Wide(_evidence)) => Ok(false),
            Some(Stop::Cut(cut)) => {
                self.refusals.meet(cut)?;
                Ok(false)
            }
        }
    }
}

/// Whether a known cut refuses the measured counts with one module less, and perhaps another one more. It takes one of the budget.
pub(crate) fn refuses(
    refusals: &Refusals,
    asks: &mut u64,
    links: &[Link],
    off: Place,
    on: Option<Place>,
) -> bool {
    *asks = asks.saturating_sub(1);
    refusals.keeps(links, off, on)
}
