ghost use Rattle.std.{specs.Prelude.{◌≡◌, ◌<◌, ◌==◌, ◌↔◌, ◌∷◌, ◌++◌, [], All, IfOk, IsTrue, OnOk, codes, flat_map, length, not}, specs.List.list_any};
ghost use Rattle.plan_terms.specs.Terms.{AreDemands, IsDemand, IsLink};
ghost use Rattle.text_kit.specs.Terms.{Verbatim, AddsItems, section};
ghost use Rattle.sndlib_reader.specs.Terms.{node_pair_items, module_items, Spells};
ghost use Rattle.sample_net.specs.Texts.{HasWritableNotes, costless_items, network_items, network_text, unit_demand_items};

use net_core::{Bytes, Demand, Demands, Link, Module, Name, Network, NoMemory, NodeId, Places};
use std::alloc::Global;
use text_kit::puts;
use text_kit::puts::{put_amount, put_close, put_keyword, put_name, put_open, put_section};

const HEADER: &[u8] = b"?SNDlib native format; type: network; version: 1.0\n";

/// Puts the section of nodes last.
fn put_nodes(text: &mut Bytes, nodes: &[Name]) -> Result<(), NoMemory>
    ensures { OnOk result (AddsItems text.old (section (codes "NODES") (flat_map (λ n. Verbatim n ∷ []) nodes.now)) text.new) }
{
    put_section(text, b"NODES")?;
    for node in nodes {
        put_name(text, node)?;
    }
    put_close(text)
}

/// Puts the names of two nodes last, between parentheses.
fn put_ends(text: &mut Bytes, nodes: &[Name], a: NodeId, b: NodeId) -> Result<(), NoMemory>
    requires { (a.0 < length nodes.now) × (b.0 < length nodes.now) }
    ensures { OnOk result (AddsItems text.old (node_pair_items nodes.now a b) text.new) }
{
    puts::put_ends(text, &nodes[a.0 as usize], &nodes[b.0 as usize])
}

/// Puts the capacity and the cost of a module last, with three places as all amounts here.
fn put_module(text: &mut Bytes, kind: &Module) -> Result<(), NoMemory>
    ensures { OnOk result (AddsItems text.old (module_items Places.Three kind.now) text.new) }
{
    put_amount(text, Places::Three, kind.capacity)?;
    put_amount(text, Places::Three, kind.cost)
}

/// Puts the capacities and costs of modules last.
fn put_modules(text: &mut Bytes, modules: &[Module]) -> Result<(), NoMemory>
    ensures { OnOk result (AddsItems text.old (flat_map (module_items Places.Three) modules.now) text.new) }
{
    for kind in modules {
        put_module(text, kind)?;
    }
    Ok(())
}

/// Puts a link last.
fn put_link(text: &mut Bytes, nodes: &[Name], link: &Link) -> Result<(), NoMemory>
    requires { IsLink (length nodes.now) link.now }
    ensures { OnOk result (AddsItems text.old (costless_items nodes.now link.now) text.new) }
{
    put_name(text, &link.name)?;
    put_ends(text, nodes, link.a, link.b)?;
    put_amount(text, Places::Three, link.fixed)?;
    put_amount(text, Places::Three, 0)?;
    put_amount(text, Places::Three, 0)?;
    put_amount(text, Places::Three, link.setup)?;
    put_open(text)?;
    put_modules(text, link.modules.items())?;
    put_close(text)
}

/// Puts the section of links last.
fn put_links(text: &mut Bytes, nodes: &[Name], links: &[Link]) -> Result<(), NoMemory>
    requires { All (IsLink (length nodes.now)) links.now }
    ensures { OnOk result (AddsItems text.old (section (codes "LINKS") (flat_map (costless_items nodes.now) links.now)) text.new) }
{
    put_section(text, b"LINKS")?;
    for link in links {
        put_link(text, nodes, link)?;
    }
    put_close(text)
}

/// Puts a demand last, of one unit of its need.
fn put_demand(text: &mut Bytes, nodes: &[Name], demand: &Demand) -> Result<(), NoMemory>
    requires { IsDemand (length nodes.now) demand.now }
    ensures { OnOk result (AddsItems text.old (unit_demand_items nodes.now demand.now) text.new) }
{
    put_name(text, &demand.name)?;
    put_ends(text, nodes, demand.from, demand.to)?;
    put_keyword(text, b"1")?;
    put_amount(text, Places::Three, demand.need)?;
    put_keyword(text, b"UNLIMITED")
}

/// Puts the section of demands last.
fn put_demands(text: &mut Bytes, nodes: &[Name], demands: &[Demand]) -> Result<(), NoMemory>
    requires { All (IsDemand (length nodes.now)) demands.now }
    ensures { OnOk result (AddsItems text.old (section (codes "DEMANDS") (flat_map (unit_demand_items nodes.now) demands.now)) text.new) }
{
    put_section(text, b"DEMANDS")?;
    for demand in demands {
        put_demand(text, nodes, demand)?;
    }
    put_close(text)
}

/// Puts all sections last.
fn put_network(
    text: &mut Bytes,
    nodes: &[Name],
    links: &[Link],
    demands: &[Demand],
) -> Result<(), NoMemory>
    requires links { All (IsLink (length nodes.now)) links.now }
    requires demands { All (IsDemand (length nodes.now)) demands.now }
    ensures { OnOk result (AddsItems text.old (network_items nodes.now links.now demands.now) text.new) }
{
    put_nodes(text, nodes)?;
    put_links(text, nodes, links)?;
    put_demands(text, nodes, demands)
}

/// Whether a link costs anything to set up.
fn has_setup_cost(links: &[Link]) -> bool
    ensures { result ≡ list_any (λ l. not (l.setup == 0)) links.now }
{
    links.iter().any(|l| l.setup != 0)
}

/// Whether a text can give the network's notes: no cost of pre-installed capacity or of routing is noted, since a network doesn't keep
/// these costs, and a setup cost is noted exactly if a link has one. It takes time in the number of links, and no memory.
pub fn has_writable_notes(net: &Network) -> bool
    ensures { IsTrue result ↔ HasWritableNotes net.now }
{
    let notes = net.notes();
    !notes.fixed_cost
        && !notes.routing_cost
        && notes.setup_cost == has_setup_cost(net.links().items())
}

/// The text of a network with three places and of demands that belong to it, in SNDlib's native format, as `read_network` reads it.
/// It takes time and memory in proportion to the text's length.
///
/// ```text
/// let text = network_text(alloc, &net, &demands)?;
/// read_network(alloc, text.items())?;      // this network and these demands
/// ```
pub fn network_text(alloc: Global, net: &Network, demands: &Demands) -> Result<Bytes, NoMemory>
    requires places { net.now.places ≡ Places.Three }
    requires notes { HasWritableNotes net.now }
    requires demands { AreDemands (length net.now.nodes) demands.now }
    ensures text { IfOk result (λ text. text ≡ network_text net.now demands.now) }
    // What is written spells the network and the demands, so that reading it gives them again.
    ensures spelled { IfOk result (λ text. Spells text net.now demands.now) }
{
    let mut text = Bytes::new(alloc);
    text.append(HEADER)?;
    put_network(
        &mut text,
        net.nodes().items(),
        net.links().items(),
        demands.items(),
    )?;
    Ok(text)
}
