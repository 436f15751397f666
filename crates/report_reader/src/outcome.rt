ghost use Rattle.std.specs.Prelude.{◌≡◌, ◌<◌, ◌≤◌, ◌^◌, length, IfOk};
ghost use Rattle.snd_tokens.specs.Terms.{left};
ghost use Rattle.text_kit.specs.Terms.{ReadsAs};
ghost use Rattle.report_words.specs.Terms.{known_in};
ghost use Rattle.report_reader.specs.ReadingReport.{head_at, outcomes_at, planned_at, separated_at, unsurvivable_at};

use crate::parts::Head;
use crate::plan::plan;
use net_core::{CutLine, List, StateId, discard};
use plan_types::Outcome;
use report_parts::routing::state_name;
use report_words::context::Context;
use report_words::element::{Element, list};
use report_words::fault::{ReportKind, ReportRefusal};
use report_words::field::field;
use report_words::words::{closing, keyword, name, opening};
use snd_tokens::Cursor;
use std::alloc::Global;
use text_kit::refusal::bad;
use text_kit::steps::word;

const CALLER: &[u8] = b"caller";

const SERIAL: &[u8] = b"plan";

const VERSION: &[u8] = b"version";

const POSITION: &[u8] = b"position";

const STATE: &[u8] = b"state";

const DEMAND: &[u8] = b"demand";

const PLAN: &[u8] = b"PLAN";

const UNSURVIVABLE: &[u8] = b"UNSURVIVABLE";

const MAX_OUTCOMES: usize = 64;

/// Takes whose plan command it was, and for which version and position.
#[tactic(auto, unfolding(crate::specs::ReadingReport::head_at))]
fn head(text: &mut Cursor) -> Result<Head, ReportRefusal>
    ensures { ReadsAs (λ h. h) result (left text.new) (head_at (left text.old)) }
{
    let caller = field(CALLER, 1, 9, text)? as u32;
    let serial = field(SERIAL, 1, 65, text)? as u32;
    let version = field(VERSION, 0, 65_537, text)? as u64;
    let position = field(POSITION, 0, 65_537, text)? as u64;
    Ok(Head {
        caller,
        serial,
        version,
        position,
    })
}

/// The outcomes of a report, whose certificates may name lines of this pool.
#[derive(Clone, Copy)]
struct OutcomeList<'a> {
    context: &'a Context<'a>,
    pool: &'a [CutLine],
    ghost few: { length pool.now < 2 ^ 32 },
}

impl<'a> OutcomeList<'a> {
    /// Takes a plan and its head.
    #[tactic(auto, unfolding(crate::specs::ReadingReport::planned_at))]
    fn planned(&self, alloc: Global, text: &mut Cursor) -> Result<Outcome, ReportRefusal>
        ensures { ReadsAs (λ o. o) result (left text.new) (planned_at (known_in self.now.context.now) self.now.pool.now (left text.old)) }
    {
        opening(text)?;
        let head = head(text)?;
        let plan = plan(alloc, self.context, self.pool, head, text)?;
        if let Err(refusal) = closing(text) {
            discard(plan);
            return Err(refusal);
        }
        Ok(Outcome::Planned {
            caller: head.caller,
            serial: head.serial,
            plan,
        })
    }

    /// Takes the state and the demand for which there is no plan, and the closing parenthesis.
    #[tactic(auto, unfolding(crate::specs::ReadingReport::separated_at))]
    fn separated(
        &self,
        alloc: Global,
        head: Head,
        text: &mut Cursor,
    ) -> Result<Outcome, ReportRefusal>
        ensures { ReadsAs (λ o. o) result (left text.new) (separated_at (known_in self.now.context.now).listed head (left text.old)) }
    {
        let state = field(STATE, 0, u128::from(self.context.states.count()), text)? as u32;
        state_name(self.context.states, state, text)?;
        keyword(DEMAND, text)?;
        let demand = name(alloc, text)?;
        closing(text)?;
        Ok(Outcome::Unsurvivable {
            caller: head.caller,
            serial: head.serial,
            version: head.version,
            position: head.position,
            state: StateId(state),
            demand,
        })
    }

    /// Takes the head of a plan command that no plan answers, and why.
    #[tactic(auto, unfolding(crate::specs::ReadingReport::unsurvivable_at))]
    fn unsurvivable(&self, alloc: Global, text: &mut Cursor) -> Result<Outcome, ReportRefusal>
        ensures { ReadsAs (λ o. o) result (left text.new) (unsurvivable_at (known_in self.now.context.now).listed (left text.old)) }
    {
        opening(text)?;
        let head = head(text)?;
        self.separated(alloc, head, text)
    }
}

impl<'a> Element for OutcomeList<'a> {
    ghost use Rattle.text_kit.specs.Terms.{no_fault};
    ghost use Rattle.report_words.specs.Terms.{branch_within, has_room, known_in};
    ghost use Rattle.report_reader.specs.ReadingReport.{outcome_branches};

    type Item = Outcome;

    ghost reading = { λ l sofar. branch_within (has_room 64 sofar) (outcome_branches (known_in l.context.now) l.pool.now) };

    ghost fault = { λ _. no_fault };

    fn take(
        &self,
        alloc: Global,
        sofar: &[Outcome],
        text: &mut Cursor,
    ) -> Result<Outcome, ReportRefusal> {
        let (at, word) = word(ReportKind::Token, ReportKind::Ended, text)?;
        if word != PLAN && word != UNSURVIVABLE {
            return Err(bad(at, ReportKind::Token));
        }
        if sofar.len() >= MAX_OUTCOMES {
            return Err(bad(at, ReportKind::Limit));
        }
        if word == PLAN {
            return self.planned(alloc, text);
        }
        self.unsurvivable(alloc, text)
    }

    fn fault(&self, _all: &[Outcome]) -> Option<ReportKind> {
        None
    }
}

/// Takes the outcomes of a report, up to the closing parenthesis.
pub(crate) fn outcomes(
    alloc: Global,
    context: &Context,
    pool: &[CutLine],
    text: &mut Cursor,
) -> Result<List<Outcome>, ReportRefusal>
    requires { length pool.now < 2 ^ 32 }
    ensures { ReadsAs (λ l. l) result (left text.new) (outcomes_at (known_in context.now) pool.now (left text.old)) }
{
    list(alloc, &OutcomeList { context, pool }, text)
}
