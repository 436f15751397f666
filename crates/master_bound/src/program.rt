ghost use Rattle.std.specs.Prelude.{◌≡◌, map};
ghost use Rattle.master_law.specs.Terms.{cut_gain};

use crate::rating::Rating;
use crate::task::Task;
use net_core::List;
use std::alloc::Global;

/// The program whose optimum is the best certificate of the cuts of a task, each of which has a rating.
#[derive(Drop)]
pub(crate) struct MasterProgram<'a> {
    pub(crate) alloc: Global,
    pub(crate) task: Task<'a>,
    pub(crate) ratings: List<Rating>,
    pub ghost gains: { map (λ r. r.gain) ratings ≡ map (cut_gain task.net.now.links) task.cuts.now },
}
