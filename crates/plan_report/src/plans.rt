ghost use Rattle.std.specs.Prelude.{◌≡◌, ◌<◌, ◌^◌, [], ◌∷◌, ◌++◌, All, OnOk, flat_map, length, zip};
ghost use Rattle.plan_terms.specs.Terms.{IsName};
ghost use Rattle.text_kit.specs.Terms.{Verbatim, Whole, Money, enclosed, AddsItems};
ghost use Rattle.plan_report.{specs.Forms.{AreRoutingsInForm, IsPlanInForm, IsQualityInForm}, specs.Items.{costs_items, demand_items, modules_items, numbers_items, plan_items, quality_items, routings_items}, specs.inner.Writable.IsWritableDemand, specs.inner.Naming.known_in};

use crate::certificates::put_certificate;
use crate::evidence::put_cause;
use crate::lists::put_counts;
use crate::names::Names;
use crate::routings::put_routings;
use net_core::{Bytes, Demand, Link, List, Name, NoMemory, Places};
use plan_types::{Fractional, Plan, Quality};
use text_kit::puts::{
    put_close, put_ends, put_keyword, put_money, put_name, put_number, put_open, put_whole,
};

/// Puts a demand last.
fn put_demand(
    text: &mut Bytes,
    places: Places,
    nodes: &[Name],
    demand: &Demand,
) -> Result<(), NoMemory>
    requires { IsWritableDemand nodes.now demand.now }
    ensures { OnOk result (AddsItems text.old (demand_items places nodes.now demand.now) text.new) }
{
    put_name(text, &demand.name)?;
    put_ends(
        text,
        &nodes[demand.from.0 as usize],
        &nodes[demand.to.0 as usize],
    )?;
    put_money(text, places, demand.need as u128)
}

/// Puts demands last, between parentheses.
fn put_demands(
    text: &mut Bytes,
    places: Places,
    nodes: &[Name],
    demands: &[Demand],
) -> Result<(), NoMemory>
    requires { All (IsWritableDemand nodes.now) demands.now }
    ensures { OnOk result (AddsItems text.old (enclosed (flat_map (demand_items places nodes.now) demands.now)) text.new) }
{
    put_open(text)?;
    for demand in demands {
        put_demand(text, places, nodes, demand)?;
    }
    put_close(text)
}

/// Puts the modules of a link last.
fn put_link_modules(text: &mut Bytes, link: &Link, counts: &[u64]) -> Result<(), NoMemory>
    ensures { OnOk result (AddsItems text.old (modules_items (link.now, counts.now)) text.new) }
{
    put_name(text, &link.name)?;
    put_counts(text, counts)
}

/// Puts the modules of all links last, between parentheses.
fn put_modules(text: &mut Bytes, links: &[Link], counts: &[List<u64>]) -> Result<(), NoMemory>
    requires { length counts.now ≡ length links.now }
    ensures { OnOk result (AddsItems text.old (enclosed (flat_map modules_items (zip links.now counts.now))) text.new) }
{
    put_open(text)?;
    for e in 0..links.len() {
        put_link_modules(text, &links[e], counts[e].items())?;
    }
    put_close(text)
}

/// Puts a word of a format and money last.
fn put_sum(text: &mut Bytes, places: Places, word: &[u8], n: u128) -> Result<(), NoMemory>
    requires name { IsName word.now }
    requires small { n < 2 ^ 126 }
    ensures { OnOk result (AddsItems text.old (Verbatim word.now ∷ Money places n ∷ []) text.new) }
{
    put_keyword(text, word)?;
    put_money(text, places, n)
}

/// Puts the cost of a plan, its bound and its raw value last.
fn put_costs(text: &mut Bytes, places: Places, plan: &Plan) -> Result<(), NoMemory>
    requires cost { plan.now.cost < 2 ^ 126 }
    requires bound { plan.now.bound < 2 ^ 126 }
    requires raw { (plan.now.raw_num < 2 ^ 126) × (plan.now.raw_den < 2 ^ 72) }
    ensures { OnOk result (AddsItems text.old (costs_items places plan.now) text.new) }
{
    put_sum(text, places, b"cost", plan.cost)?;
    put_sum(text, places, b"bound", plan.bound)?;
    put_keyword(text, b"raw")?;
    put_whole(text, plan.raw_num)?;
    put_whole(text, plan.raw_den)
}

/// Puts last a share and the routings within it.
fn put_fractional(
    text: &mut Bytes,
    names: &Names<'_>,
    demands: &[Demand],
    fractional: &Fractional,
) -> Result<(), NoMemory>
    requires { AreRoutingsInForm (known_in names.now) demands.now fractional.now.routings }
    ensures { OnOk result (AddsItems text.old
        (Whole fractional.now.share.scale ∷ numbers_items fractional.now.share.units
        ++ routings_items (known_in names.now) demands.now fractional.now.routings) text.new) }
{
    put_number(text, fractional.share.scale)?;
    put_counts(text, fractional.share.units.items())?;
    put_routings(text, names, demands, fractional.routings.items())
}

/// Puts last how good a bound is.
pub(crate) fn put_quality(
    text: &mut Bytes,
    names: &Names<'_>,
    demands: &[Demand],
    quality: &Quality,
) -> Result<(), NoMemory>
    requires { IsQualityInForm (known_in names.now) demands.now quality.now }
    ensures { OnOk result (AddsItems text.old (quality_items (known_in names.now) demands.now quality.now) text.new) }
{
    match quality {
        Quality::Tight(fractional) => {
            put_keyword(text, b"tight")?;
            put_fractional(text, names, demands, fractional)
        }
        Quality::Loose(cause) => {
            put_keyword(text, b"loose")?;
            put_cause(text, names, demands, cause)
        }
    }
}

/// Puts last what a plan has after its head.
pub(crate) fn put_plan(text: &mut Bytes, names: &Names<'_>, plan: &Plan) -> Result<(), NoMemory>
    requires { IsPlanInForm (known_in names.now) plan.now }
    ensures { OnOk result (AddsItems text.old (plan_items (known_in names.now) plan.now) text.new) }
{
    let demands = plan.demands.items();
    put_keyword(text, b"DEMANDS")?;
    put_demands(text, names.places, names.nodes, demands)?;
    put_costs(text, names.places, plan)?;
    put_keyword(text, b"MODULES")?;
    put_modules(text, names.links, plan.counts.items())?;
    put_certificate(text, &plan.certificate)?;
    put_keyword(text, b"ROUTES")?;
    put_routings(text, names, demands, plan.routings.items())?;
    put_quality(text, names, demands, &plan.quality)
}
