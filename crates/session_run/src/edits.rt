ghost use Rattle.std.specs.Prelude.{◌<◌, ◌^◌};
ghost use Rattle.plan_terms.specs.Terms.{edit_need};
ghost use Rattle.board_desk.specs.Turns.{IsAtDesk, IsSameCaller, caller_seen};
ghost use Rattle.session_run.specs.inner.Turns.{EndsEdit, IsDoneBy};

use crate::setting::Stop;
use board_desk::Caller;
use cut_pool::EditAnswer;
use net_core::{Edit, discard};
use outside_io::Gate;
use std::sync::Wait;

/// What the board's answer means for the caller: the edit is done, or the caller stops.
fn done_by(answer: EditAnswer) -> Result<(), Stop>
    ensures { IsDoneBy answer result }
{
    let done = match &answer {
        EditAnswer::At { .. } => Ok(()),
        EditAnswer::Full(_) => Err(Stop::Full),
        EditAnswer::NoMemory(_) => Err(Stop::NoMemory),
    };
    discard(answer);
    done
}

/// Makes a caller's edit in a turn. The gate is told before it and after it. It may never return.
pub fn run_edit<R: Wait, G: Gate>(
    rt: &R,
    gate: &G,
    edit: Edit,
    caller: &mut Caller,
) -> Result<(), Stop>
    requires own { IsAtDesk caller.old }
    requires need { edit_need edit < 2 ^ 40 }
    ensures same { IsSameCaller caller.old caller.new }
    ensures edit { EndsEdit caller.old.number edit (caller_seen caller.old) (caller_seen caller.new) result }
{
    gate.editing(caller.number());
    let answer = caller.edit(rt, edit);
    gate.edited(caller.number());
    done_by(answer)
}
