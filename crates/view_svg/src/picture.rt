ghost use Rattle.std.specs.Prelude.{◌≡◌, ℕ, ◌*◌, ◌^◌, ◌<◌, ◌≤◌, ◌++◌, [], IfOk, OnOk, cond, flat_map, length, nat_lt};
ghost use Rattle.plan_terms.specs.Terms.{case_of};
ghost use Rattle.plan_report.specs.Terms.{known_of, state_name};
ghost use Rattle.plan_view.specs.Terms.{IsSoundPlan, den_in, failed_links, load_in, routing_in};
ghost use Rattle.text_kit.specs.Terms.{AddsText};
ghost use Rattle.view_svg.{specs.Changes.{AreRoundedLoads, changed_flows}, specs.Pictures.{IsPicture, beginning, drawn_changes, drawn_in_state, drawn_nodes, picture_text}};

use crate::changes::changes_of;
use crate::legend::{put_beginning, put_ending};
use crate::links::put_links;
use crate::nodes::put_nodes;
use crate::paths::put_changes;
use net_core::{
    Bytes, Flow, Instance, LinkId, List, Listed, Network, NoMemory, Routing, StateId, States,
};
use node_places::Place;
use picture_layout::{Layout, layout_of};
use plan_report::state_name;
use plan_types::Plan;
use plan_view::{LinkRow, link_rows};
use std::alloc::Global;

/// The links that a state fails; none where there is no such state.
fn failed_links(listed: &[Listed], state: u32) -> &[LinkId]
    ensures { result.now ≡ failed_links listed.now state }
{
    if state == 0 {
        return &[];
    }
    match listed.get(state as usize - 1) {
        Some(failure) => failure.links.items(),
        None => &[],
    }
}

/// The flows in a state; none where there is no such state.
fn flows_in(routings: &[Routing], state: u32) -> &[Flow]
    ensures { result.now ≡ (routing_in routings.now state).flows }
{
    match routings.get(state as usize) {
        Some(routing) => routing.flows.items(),
        None => &[],
    }
}

/// The denominator of a state's flows; 0 where there is no such state.
fn den_in(routings: &[Routing], state: u32) -> u64
    ensures { result ≡ den_in routings.now state }
{
    match routings.get(state as usize) {
        Some(routing) => routing.den,
        None => 0,
    }
}

/// The capacities of links.
fn capacities(alloc: Global, rows: &[LinkRow]) -> Result<List<u128>, NoMemory> {
    let mut capacities = List::new(alloc);
    for row in rows {
        capacities.push(row.capacity)?;
    }
    Ok(capacities)
}

/// Where the nodes and links of a network are drawn, by the places of its nodes and the rows of its links.
fn layout(
    alloc: Global,
    places: &[Option<Place>],
    instance: &Instance,
    rows: &List<LinkRow>,
) -> Result<Layout, NoMemory>
    ensures nodes { IfOk result (λ layout. length layout.nodes ≡ length instance.now.net.now.nodes) }
    ensures links { IfOk result (λ layout. length layout.links ≡ length instance.now.net.now.links) }
{
    let capacities = capacities(alloc, rows.items())?;
    let net = instance.net;
    layout_of(
        alloc,
        places,
        net.nodes().len(),
        net.links().items(),
        capacities.items(),
    )
}

/// What each link carries in a state along paths that no flow of the same demand takes where nothing fails.
fn plan_changes(
    alloc: Global,
    plan: &Plan,
    state: u32,
    links: usize,
) -> Result<List<u128>, NoMemory>
    requires few { links < 2 ^ 32 }
    requires within { (e : ℕ) → load_in plan.now.routings state e ≤ 2 ^ 46 * den_in plan.now.routings state }
    ensures { IfOk result (AreRoundedLoads (changed_flows (routing_in plan.now.routings 0).flows (routing_in plan.now.routings state).flows)
        (den_in plan.now.routings state) links) }
{
    let routings = plan.routings.items();
    let normal = flows_in(routings, 0);
    let flows = flows_in(routings, state);
    changes_of(alloc, normal, flows, den_in(routings, state), links)
}

/// What a picture shows: a row of each link, where all is drawn, and what each link carries along other paths.
#[derive(Drop)]
struct Drawing {
    rows: List<LinkRow>,
    layout: Layout,
    changes: List<u128>,
}

/// Puts the beginning of a picture in a state last.
fn put_state_beginning(
    text: &mut Bytes,
    alloc: Global,
    network: &[u8],
    states: &States,
    state: u32,
) -> Result<(), NoMemory>
    ensures { OnOk result (text.new ≡ text.old ++ beginning network.now (state_name states.now.listed state)) }
{
    let name = state_name(states.listed().items(), StateId(state));
    put_beginning(text, alloc, network, name)
}

/// Puts the links last on which a state has taken other paths, if it is one with failures.
fn put_state_changes(text: &mut Bytes, drawing: &Drawing, state: u32) -> Result<(), NoMemory>
    ensures { OnOk result (text.new ≡ text.old
        ++ cond (nat_lt 0 state) (drawn_changes drawing.now.layout.links drawing.now.changes drawing.now.rows) []) }
{
    if state == 0 {
        return Ok(());
    }
    let strokes = drawing.layout.links.items();
    put_changes(text, strokes, drawing.changes.items(), drawing.rows.items())
}

/// Puts the links in a state last.
fn put_state_links(
    text: &mut Bytes,
    alloc: Global,
    instance: &Instance,
    drawing: &Drawing,
    state: u32,
) -> Result<(), NoMemory>
    ensures { OnOk result (text.new ≡ text.old
        ++ flat_map (drawn_in_state (known_of instance.now.net.now instance.now.states.now) drawing.now.layout.links
        (failed_links instance.now.states.now.listed state) drawing.now.changes) drawing.now.rows) }
{
    let strokes = drawing.layout.links.items();
    let failed = failed_links(instance.states.listed().items(), state);
    let changes = drawing.changes.items();
    let rows = drawing.rows.items();
    put_links(text, alloc, instance, strokes, failed, changes, rows)
}

/// Puts the nodes of a network last.
fn put_network_nodes(
    text: &mut Bytes,
    alloc: Global,
    net: &Network,
    layout: &Layout,
) -> Result<(), NoMemory>
    ensures { OnOk result (text.new ≡ text.old ++ drawn_nodes net.now.nodes layout.now.nodes) }
{
    put_nodes(text, alloc, net.nodes().items(), layout.nodes.items())
}

/// Puts what is drawn last.
fn put_drawn(
    text: &mut Bytes,
    alloc: Global,
    network: &[u8],
    instance: &Instance,
    state: u32,
    drawing: &Drawing,
) -> Result<(), NoMemory>
    ensures { OnOk result (text.new ≡ text.old
        ++ picture_text network.now (known_of instance.now.net.now instance.now.states.now) state drawing.now.rows drawing.now.layout drawing.now.changes) }
{
    put_state_beginning(text, alloc, network, instance.states, state)?;
    put_state_changes(text, drawing, state)?;
    put_state_links(text, alloc, instance, drawing, state)?;
    put_network_nodes(text, alloc, instance.net, &drawing.layout)?;
    put_ending(text, drawing.layout.is_map, state > 0)
}

/// Puts the picture of a plan last, in one state, of which 0 is the one without failures. The plan is one that a check accepted, the network is
/// called by this name, and its nodes are at these places; where one has none, all of them are on a circle.
///
/// It takes time in the links of all paths times the number of links, in the square of these and in the square of the flows, and memory for the
/// picture, for a row of each link, and for the flows on other paths.
pub fn put_picture(
    text: &mut Bytes,
    alloc: Global,
    network: &[u8],
    places: &[Option<Place>],
    instance: &Instance,
    plan: &Plan,
    state: u32,
) -> Result<(), NoMemory>
    requires { IsSoundPlan (case_of instance.now) plan.now }
    ensures { OnOk result (AddsText (IsPicture network.now (case_of instance.now) plan.now state) text.old text.new) }
{
    let rows = link_rows(alloc, instance, plan)?;
    let layout = layout(alloc, places, instance, &rows)?;
    let links = instance.net.links().len();
    let changes = plan_changes(alloc, plan, state, links)?;
    let drawing = Drawing {
        rows,
        layout,
        changes,
    };
    put_drawn(text, alloc, network, instance, state, &drawing)
}
