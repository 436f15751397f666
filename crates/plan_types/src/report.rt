use crate::plan::Plan;
use net_core::{Copied, CutLine, Entry, List, Name, NoMemory, Notes, StateId};

/// The outcome of one plan command of a caller. Serials count the caller's plan commands from 1.
#[derive(Drop)]
pub enum Outcome {
    Planned {
        caller: u32,
        serial: u32,
        plan: Plan,
    },
    /// No counts carry the demands: the state separates the ends of the named demand, which has a need.
    Unsurvivable {
        caller: u32,
        serial: u32,
        version: u64,
        position: u64,
        state: StateId,
        demand: Name,
    },
}

/// A report: which costs of the network aren't counted, the journal of edits and cuts, the pool of cuts with their right
/// sides at the last version, and the outcomes. It takes memory for a length of each link for each cut of the journal and of the pool, and
/// for the plans; a copy takes as much again, and time in proportion.
#[derive(Drop)]
pub struct Report {
    pub notes: Notes,
    pub entries: List<Entry>,
    pub pool: List<CutLine>,
    pub outcomes: List<Outcome>,
}

impl Copied for Outcome {
    fn copy(&self) -> Result<Outcome, NoMemory> {
        Ok(match self {
            Outcome::Planned {
                caller,
                serial,
                plan,
            } => Outcome::Planned {
                caller: *caller,
                serial: *serial,
                plan: plan.copy()?,
            },
            Outcome::Unsurvivable {
                caller,
                serial,
                version,
                position,
                state,
                demand,
            } => Outcome::Unsurvivable {
                caller: *caller,
                serial: *serial,
                version: *version,
                position: *position,
                state: *state,
                demand: demand.copy()?,
            },
        })
    }
}

impl Copied for Report {
    fn copy(&self) -> Result<Report, NoMemory> {
        Ok(Report {
            notes: self.notes,
            entries: self.entries.copy()?,
            pool: self.pool.copy()?,
            outcomes: self.outcomes.copy()?,
        })
    }
}
