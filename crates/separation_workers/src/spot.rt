ghost use Rattle.std.specs.Prelude.{IfOk};
ghost use Rattle.plan_terms.specs.Terms.{graph};
ghost use Rattle.metric_cut.specs.Cuts.{IsCutOf};
ghost use Rattle.board_desk.specs.Turns.{IsAtDesk, board_made, caller_seen};
ghost use Rattle.separator.{specs.inner.Working.state_and_lengths, specs.Separators.IsSpotIn};
ghost use Rattle.separation_workers.{specs.Callers.SeesOn, specs.inner.Turns.PoolsAtMost};

use board_desk::Caller;
use metric_cut::Cut;
use net_core::NoMemory;
use plan_types::Spot;
use separator::spot_after;
use std::sync::Wait;

/// Puts a cut of the desk's network and states into the pool in a turn of the caller, if there is room for it, and tells its spot. It may
/// never return.
pub fn spot_in_turn<R: Wait>(rt: &R, caller: &mut Caller, cut: Cut) -> Result<Spot, NoMemory>
    requires own { IsAtDesk caller.old }
    requires cut { IsCutOf (graph (board_made caller.old).net.now (board_made caller.old).states.now cut.state.0) cut }
    ensures goes { SeesOn caller.old caller.new }
    ensures pools { PoolsAtMost (state_and_lengths cut) (caller_seen caller.old) (caller_seen caller.new) }
    ensures spot { IfOk result (IsSpotIn (caller_seen caller.new).history (state_and_lengths cut)) }
{
    spot_after(caller.admit(rt, cut))
}
