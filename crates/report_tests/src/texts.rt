use net_core::{Bytes, Copied, List, Module, Network, Places, States};
use report_reader::{ReportRefusal, read_report};
use std::alloc::Global;
use worked_networks::network;

/// What a report begins with, up to its first entry.
pub(crate) const JOURNAL: &[u8] = b"?planner report; version: 1\nNOTES()JOURNAL(";

/// What a report of a network with six decimal places begins with, up to its first entry.
pub(crate) const FINE_JOURNAL: &[u8] = b"?planner report; version: 2\nNOTES()JOURNAL(";

/// The places of a network whose reports begin so: six where the version is 2.
pub(crate) fn places_of(front: &[u8]) -> Places {
    match front.get(26) {
        Some(b'2') => Places::Six,
        _ => Places::Three,
    }
}

/// The network of the same nodes and links whose amounts have these places.
pub(crate) fn in_places(net: &Network, places: Places) -> Option<Network> {
    let nodes = net.nodes().copy().ok()?;
    let links = net.links().copy().ok()?;
    Network::check(nodes, links, net.notes(), places).ok()
}

/// A text in three parts.
pub(crate) fn joined(alloc: Global, front: &[u8], rest: &[u8], last: &[u8]) -> Option<Bytes> {
    let mut text = List::from_slice(alloc, front).ok()?;
    text.append(rest).ok()?;
    text.append(last).ok()?;
    Some(text)
}

/// The place and the kind of the first fault of a report on this network.
fn fault_on(alloc: Global, net: &Network, text: &[u8]) -> Option<(u64, &'static str)> {
    let states = States::only_none(alloc);
    match read_report(alloc, net, &states, text).err()? {
        ReportRefusal::Bad { at, kind } => Some((at, kind.word())),
        ReportRefusal::NoMemory => None,
    }
}

/// The place and the kind of the first fault of a report of two nodes and a link of these modules, whose amounts have these places.
pub(crate) fn fault_of(
    alloc: Global,
    places: Places,
    modules: &[Module],
    text: &[u8],
) -> Option<(u64, &'static str)> {
    let net = network(alloc, 2, &[(0, 1, 0, modules)]).ok()?;
    fault_on(alloc, &in_places(&net, places)?, text)
}
