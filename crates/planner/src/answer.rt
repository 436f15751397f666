use failure_states::Separation;
use net_core::{Copied, Demands, NoMemory};
use plan_types::Plan;

/// How planning ends.
#[derive(Drop)]
pub enum PlanAnswer {
    Planned(Plan),
    /// No counts carry the demands: in this state no path joins the ends of the demand at this place in the list. The demands are handed
    /// back.
    NotSurvivable(Separation, Demands),
}

impl Copied for PlanAnswer {
    fn copy(&self) -> Result<PlanAnswer, NoMemory> {
        Ok(match self {
            PlanAnswer::Planned(plan) => PlanAnswer::Planned(plan.copy()?),
            PlanAnswer::NotSurvivable(separation, demands) => {
                PlanAnswer::NotSurvivable(*separation, demands.copy()?)
            }
        })
    }
}
