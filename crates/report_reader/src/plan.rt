ghost use Rattle.std.specs.Prelude.{◌≡◌, ◌<◌, ◌^◌, length};
ghost use Rattle.snd_tokens.specs.Terms.{left};
ghost use Rattle.text_kit.specs.Terms.{ReadsAs};
ghost use Rattle.report_words.specs.Terms.{known_in};
ghost use Rattle.report_parts.specs.Readers.{reader_demands, reader_names};
ghost use Rattle.report_reader.specs.ReadingPlan.{plan_at, plan_parts_at, routed_at, values_at};

use crate::parts::{Head, PlanParts, Routed, Values};
use net_core::{CutLine, Places, discard};
use plan_types::Plan;
use report_parts::certificate::certificate;
use report_parts::demands::plan_demands;
use report_parts::modules::modules;
use report_parts::plan_reader::PlanReader;
use report_words::context::Context;
use report_words::fault::ReportRefusal;
use report_words::field::field;
use report_words::words::{keyword, number, sum};
use snd_tokens::Cursor;
use std::alloc::Global;

const COST: &[u8] = b"cost";

const BOUND: &[u8] = b"bound";

const RAW: &[u8] = b"raw";

const ROUTES: &[u8] = b"ROUTES";

const MONEY_LIMIT: u128 = 1 << 126;

const DEN_LIMIT: u128 = 1 << 72;

/// Takes what a plan costs, its bound, and the raw value of its certificate.
#[tactic(auto, unfolding(crate::specs::ReadingPlan::values_at))]
fn values(places: Places, text: &mut Cursor) -> Result<Values, ReportRefusal>
    ensures { ReadsAs (λ v. v) result (left text.new) (values_at places (left text.old)) }
{
    keyword(COST, text)?;
    let cost = sum(places, MONEY_LIMIT, text)?;
    keyword(BOUND, text)?;
    let bound = sum(places, MONEY_LIMIT, text)?;
    let raw_num = field(RAW, 0, MONEY_LIMIT, text)?;
    let raw_den = number(1, DEN_LIMIT, text)?;
    Ok(Values {
        cost,
        bound,
        raw_num,
        raw_den,
    })
}

/// Takes the routings of a plan, and how good its bound is.
#[tactic(auto, unfolding(crate::specs::ReadingPlan::routed_at))]
fn routed(reader: &PlanReader, text: &mut Cursor) -> Result<Routed, ReportRefusal>
    ensures { ReadsAs (λ r. r) result (left text.new) (routed_at (reader_names reader.now) (reader_demands reader.now) (left text.old)) }
{
    keyword(ROUTES, text)?;
    let routings = reader.routings(text)?;
    let quality = reader.quality(text)?;
    Ok(Routed { routings, quality })
}

/// Takes what a plan says after its demands.
#[tactic(auto, unfolding(crate::specs::ReadingPlan::plan_parts_at))]
fn plan_parts(
    reader: &PlanReader,
    pool: &[CutLine],
    text: &mut Cursor,
) -> Result<PlanParts, ReportRefusal>
    requires { length pool.now < 2 ^ 32 }
    ensures { ReadsAs (λ p. p) result (left text.new) (plan_parts_at (reader_names reader.now) pool.now (reader_demands reader.now) (left text.old)) }
{
    let net = reader.context.net;
    let values = values(net.places(), text)?;
    let counts = modules(reader.alloc, net.links().items(), text)?;
    let certificate = certificate(reader.alloc, reader.context, pool, text)?;
    let routed = routed(reader, text)?;
    Ok(PlanParts {
        values,
        counts,
        certificate,
        routed,
    })
}

/// Takes a plan after its head.
#[tactic(auto, unfolding(crate::specs::ReadingPlan::plan_at))]
pub(crate) fn plan(
    alloc: Global,
    context: &Context,
    pool: &[CutLine],
    head: Head,
    text: &mut Cursor,
) -> Result<Plan, ReportRefusal>
    requires { length pool.now < 2 ^ 32 }
    ensures { ReadsAs (λ p. p) result (left text.new) (plan_at (known_in context.now) pool.now head (left text.old)) }
{
    let demands = plan_demands(alloc, context, text)?;
    let reader = PlanReader {
        alloc,
        context: &*context,
        demands: &demands,
    };
    match plan_parts(&reader, pool, text) {
        Ok(
            PlanParts {
                values,
                counts,
                certificate,
                routed,
            },
        ) => Ok(Plan {
            version: head.version,
            position: head.position,
            demands: demands.list,
            counts,
            cost: values.cost,
            routings: routed.routings,
            certificate,
            raw_num: values.raw_num,
            raw_den: values.raw_den,
            bound: values.bound,
            quality: routed.quality,
        }),
        Err(refusal) => {
            discard(demands);
            Err(refusal)
        }
    }
}
