ghost use Rattle.std.specs.Prelude.{◌≡◌, IfOk};
ghost use Rattle.plan_reports.specs.LonePlans.{whole_report};

use net_core::{CutLine, Entry, List, NoMemory, Notes};
use plan_types::{Outcome, Plan, Report};
use std::alloc::Global;

/// The report of one plan command of caller 1, with its plan kept apart from the other parts.
#[derive(Drop)]
pub struct PlannedReport {
    pub notes: Notes,
    pub entries: List<Entry>,
    pub pool: List<CutLine>,
    pub plan: Plan,
}

impl PlannedReport {
    /// The report, with the plan as its one outcome. It takes memory for the outcome.
    pub fn into_report(self, alloc: Global) -> Result<Report, NoMemory>
        ensures { IfOk result (λ r. r ≡ whole_report self) }
    {
        let mut outcomes = List::new(alloc);
        outcomes.push(Outcome::Planned {
            caller: 1,
            serial: 1,
            plan: self.plan,
        })?;
        Ok(Report {
            notes: self.notes,
            entries: self.entries,
            pool: self.pool,
            outcomes,
        })
    }
}
