ghost use Rattle.std.specs.Prelude.{◌≤◌, All, OnOk, flat_map, length};
ghost use Rattle.text_kit.specs.Terms.{enclosed, AddsItems};
ghost use Rattle.plan_report.{specs.Forms.{AreRoutingsInForm, IsFlowInForm, IsRoutingInForm}, specs.Items.{flow_items, routing_items, routings_items}, specs.inner.Naming.known_in};

use crate::lists::put_path;
use crate::names::{Names, put_demand_name, put_state_name};
use net_core::{Bytes, Demand, Flow, Link, NoMemory, Routing};
use text_kit::puts::{put_close, put_field, put_number, put_open, put_whole};

/// Puts a flow last.
pub(crate) fn put_flow(
    text: &mut Bytes,
    links: &[Link],
    demands: &[Demand],
    flow: &Flow,
) -> Result<(), NoMemory>
    requires { IsFlowInForm links.now demands.now flow.now }
    ensures { OnOk result (AddsItems text.old (flow_items links.now demands.now flow.now) text.new) }
{
    put_demand_name(text, demands, flow.demand)?;
    put_whole(text, flow.num)?;
    put_path(text, links, flow.path.items())
}

/// Puts flows last, between parentheses.
fn put_flows(
    text: &mut Bytes,
    links: &[Link],
    demands: &[Demand],
    flows: &[Flow],
) -> Result<(), NoMemory>
    requires { All (IsFlowInForm links.now demands.now) flows.now }
    ensures { OnOk result (AddsItems text.old (enclosed (flat_map (flow_items links.now demands.now) flows.now)) text.new) }
{
    put_open(text)?;
    for flow in flows {
        put_flow(text, links, demands, flow)?;
    }
    put_close(text)
}

/// Puts the routing of a state last.
fn put_routing(
    text: &mut Bytes,
    names: &Names<'_>,
    demands: &[Demand],
    state: usize,
    routing: &Routing,
) -> Result<(), NoMemory>
    requires form { IsRoutingInForm names.now.links.now demands.now routing.now }
    requires state { state ≤ length names.now.listed.now }
    ensures { OnOk result (AddsItems text.old (routing_items (known_in names.now) demands.now (state, routing.now)) text.new) }
{
    put_field(text, b"state", state as u64)?;
    put_state_name(text, names.listed, state)?;
    put_number(text, routing.den)?;
    put_flows(text, names.links, demands, routing.flows.items())
}

/// Puts the routings of all states last, between parentheses.
pub(crate) fn put_routings(
    text: &mut Bytes,
    names: &Names<'_>,
    demands: &[Demand],
    routings: &[Routing],
) -> Result<(), NoMemory>
    requires { AreRoutingsInForm (known_in names.now) demands.now routings.now }
    ensures { OnOk result (AddsItems text.old (routings_items (known_in names.now) demands.now routings.now) text.new) }
{
    put_open(text)?;
    for i in 0..routings.len() {
        put_routing(text, names, demands, i, &routings[i])?;
    }
    put_close(text)
}
