ghost use Rattle.std.specs.Prelude.{◌≡◌, [], IfOk, OnErr};
ghost use Rattle.plan_terms.specs.Terms.{AreDemands, graph};
ghost use Rattle.metric_cut.specs.Cuts.{IsCutOf, IsLineAt};
ghost use Rattle.separator.{specs.Separators.IsSpotIn, specs.Spots.IsSpotAfter, specs.inner.Working.{PoolsMore, PoolsOnly, state_and_lengths}};

use cut_pool::{AdmitAnswer, Board};
use metric_cut::Cut;
use net_core::{CutLine, Demands, NoMemory, discard};
use plan_types::Spot;

/// The place of a cut that a board's answer tells.
fn spot_told(answer: &AdmitAnswer) -> Result<Spot, NoMemory>
    ensures { IsSpotAfter answer.now result }
{
    match answer {
        AdmitAnswer::Admitted { index, .. } => Ok(Spot::Pool(*index)),
        AdmitAnswer::Known(index, _) => Ok(Spot::Pool(*index)),
        AdmitAnswer::PoolFull(_) => Ok(Spot::Local),
        AdmitAnswer::Full(_) => Ok(Spot::Local),
        AdmitAnswer::NoMemory(_) => Err(NoMemory),
    }
}

/// The place of a cut in the pool after a board's answer to it. It takes constant time.
pub fn spot_after(answer: AdmitAnswer) -> Result<Spot, NoMemory>
    ensures { IsSpotAfter answer result }
{
    let spot = spot_told(&answer);
    discard(answer);
    spot
}

/// Admits a cut to the board's pool, where there is room for it, and tells its place there.
pub fn spot_of(board: &mut Board, cut: Cut) -> Result<Spot, NoMemory>
    requires { IsCutOf (graph board.old.net.now board.old.states.now cut.state.0) cut }
    ensures only { PoolsOnly board.old board.new (state_and_lengths cut) }
    ensures spot { IfOk result (IsSpotIn board.new.entries (state_and_lengths cut)) }
    ensures none { OnErr result (PoolsMore board.old board.new []) }
{
    spot_after(board.admit(cut))
}

/// The line of a cut of the board's network and states, and its place in the pool, once it is admitted where there is room for it.
pub fn line_and_spot(
    demands: &Demands,
    cut: Cut,
    board: &mut Board,
) -> Result<(CutLine, Spot), NoMemory>
    requires demands { AreDemands cut.table.nodes demands.now }
    requires cut { IsCutOf (graph board.old.net.now board.old.states.now cut.state.0) cut }
    ensures only { PoolsOnly board.old board.new (state_and_lengths cut) }
    ensures line { IfOk result (λ r. IsLineAt demands.now cut r.0) }
    ensures spot { IfOk result (λ r. IsSpotIn board.new.entries (state_and_lengths cut) r.1) }
    ensures none { OnErr result (PoolsMore board.old board.new []) }
{
    let line = cut.line(demands)?;
    let spot = spot_of(board, cut)?;
    Ok((line, spot))
}
