ghost use Rattle.std.specs.Prelude.{◌≡◌, ◌∷◌, OnOk, flat_map};
ghost use Rattle.plan_report.specs.Terms.{evidence_items, numbers_items, route_column_items, wide_items};
ghost use Rattle.text_kit.specs.Terms.{Whole, enclosed};
ghost use Rattle.report_comments.{specs.Comments.AddsSpaced, specs.ReportComments.IsOfRouting};

use crate::names::{put_demand, put_link, put_path};
use crate::puts::{put_close, put_field, put_numbers, put_open, put_whole, put_word};
use net_core::{Bytes, Caps, Demand, Evidence, Link, NoMemory, RouteColumn, WideKind};

/// Appends a column of a routing program.
fn put_column(
    text: &mut Bytes,
    links: &[Link],
    demands: &[Demand],
    column: &RouteColumn,
) -> Result<(), NoMemory>
    ensures { OnOk result (AddsSpaced text.old (route_column_items links.now demands.now column.now) text.new) }
{
    match column {
        RouteColumn::LinkSlack(link) => put_link(text, b"link", links, *link),
        RouteColumn::DemandSlack(demand) => put_demand(text, b"demand", demands, *demand),
        RouteColumn::Carry(demand, path) => {
            put_demand(text, b"flow", demands, *demand)?;
            put_path(text, links, path.items())
        }
    }
}

/// Appends a basis of a routing program between parentheses.
fn put_basis(
    text: &mut Bytes,
    links: &[Link],
    demands: &[Demand],
    basis: &[RouteColumn],
) -> Result<(), NoMemory>
    ensures { OnOk result (AddsSpaced text.old (enclosed (flat_map (route_column_items links.now demands.now) basis.now)) text.new) }
{
    put_open(text)?;
    for column in basis {
        put_column(text, links, demands, column)?;
    }
    put_close(text)
}

/// Appends what is too wide in a routing program.
fn put_kind(
    text: &mut Bytes,
    links: &[Link],
    demands: &[Demand],
    kind: &WideKind<RouteColumn>,
) -> Result<(), NoMemory>
    ensures { OnOk result (AddsSpaced text.old (wide_items links.now (route_column_items links.now demands.now) kind.now) text.new) }
{
    match kind {
        WideKind::Number(column) => {
            put_word(text, b"number")?;
            put_column(text, links, demands, column)
        }
        WideKind::Row(row) => put_field(text, b"row", *row as u128),
        WideKind::Product(row, column) => {
            put_field(text, b"entry", *row as u128)?;
            put_column(text, links, demands, column)
        }
        WideKind::Sum(row) => put_field(text, b"sum", *row as u128),
        WideKind::Common => put_word(text, b"common"),
        WideKind::Value => put_word(text, b"value"),
        WideKind::Length(link) => put_link(text, b"length", links, *link),
    }
}

/// Appends capacities: their scale, and a number for each link.
fn put_caps(text: &mut Bytes, caps: &Caps) -> Result<(), NoMemory>
    ensures { OnOk result (AddsSpaced text.old (Whole caps.now.scale ∷ numbers_items caps.now.nums) text.new) }
{
    put_whole(text, caps.scale as u128)?;
    put_numbers(text, caps.nums.items())
}

/// Appends evidence of a routing program in the words of a report, each after one space. It takes time in the bytes that it appends, and asks
/// for memory only if the text has no room left; if memory runs out, the text may end with a part of the evidence.
pub fn put_evidence(
    text: &mut Bytes,
    links: &[Link],
    demands: &[Demand],
    evidence: &Evidence,
) -> Result<(), NoMemory>
    requires { IsOfRouting evidence.now }
    ensures { OnOk result (AddsSpaced text.old (evidence_items links.now demands.now evidence.now) text.new) }
{
    match evidence {
        Evidence::Route {
            state,
            caps,
            basis,
            kind,
        } => {
            put_field(text, b"route", state.0 as u128)?;
            put_caps(text, caps)?;
            put_basis(text, links, demands, basis.items())?;
            put_kind(text, links, demands, kind)
        }
        Evidence::Master { .. } => unreachable!(),
    }
}
