ghost use Rattle.std.specs.Prelude.{◌≡◌, ◌≤◌, [], IfOk, length, count_by};
ghost use Rattle.plan_terms.specs.Terms.{AreDemands};
ghost use Rattle.cut_pool.specs.Terms.{origin_of, spare_of};
ghost use Rattle.session_run.specs.inner.Changes.{is_change};

use cut_pool::Board;
use net_core::{Demands, Network, NoMemory, States};
use session_script::Command;
use std::alloc::Global;

/// How many commands change the demands.
fn changes(commands: &[Command]) -> usize
    ensures { result ≡ count_by is_change commands.now }
{
    commands.iter().filter(|c| !c.is_plan()).count()
}

/// The board of the network's opening demands, with memory reserved for as many edits as there are commands that change the demands.
pub fn board_for<'a>(
    alloc: Global,
    net: &'a Network,
    states: &'a States,
    opening: Demands,
    commands: &[Command],
) -> Result<Board<'a>, NoMemory>
    requires opening { AreDemands (length net.now.nodes) opening }
    requires few { length commands.now ≤ 1000 }
    ensures entries { IfOk result (λ b. b.entries ≡ []) }
    ensures origin { IfOk result (λ b. origin_of b ≡ (net.now, states.now, opening)) }
    ensures spare { IfOk result (λ b. spare_of b ≡ count_by is_change commands.now) }
{
    let mut board = Board::new(alloc, net, states, opening)?;
    board.reserve(changes(commands) as u32)?;
    Ok(board)
}
