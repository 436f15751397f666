ghost use Rattle.std.{specs.Prelude.{◌≡◌, ◌≢◌, ℕ, ◌≤◌, ◌<◌, ◌^◌, ◌↔◌, ◌==◌, IsTrue, All, AllPairs, IfNone, IsOk, MatchResult, None, Some, List, [], length, nat_lt, not, ◌||◌, ◌&&◌}, specs.List.list_any};
ghost use Rattle.net_core.{specs.Tests.{first_fault, is_named, is_large, are_same}, specs.Network.{IsLink, IsNetwork, has_large_amount, link_tests, links_tests, nodes_tests, network_fault}, specs.Settled.{settled_links, settled_notes, without_setups}};

use crate::ids::NodeId;
use crate::limits::{MOST_LINKS, MOST_NODES, TOO_LARGE};
use crate::list::{Copied, List, NoMemory};
use crate::name::Name;
use crate::places::Places;
use thiserror::Error;

/// A module that a link can be given any number of times. Its capacity and its cost are in units of the network.
#[derive(Clone, Copy, Debug, PartialEq, Eq)]
pub struct Module {
    pub capacity: u64,
    pub cost: u64,
}

/// A link between two nodes, with its pre-installed capacity, its setup cost and its modules, in units of the network. The setup
/// cost is paid once where some module is installed.
#[derive(Drop)]
pub struct Link {
    pub name: Name,
    pub a: NodeId,
    pub b: NodeId,
    pub fixed: u64,
    pub setup: u64,
    pub modules: List<Module>,
}

impl Copied for Link {
    fn copy(&self) -> Result<Link, NoMemory> {
        Ok(Link {
            name: self.name.copy()?,
            a: self.a,
            b: self.b,
            fixed: self.fixed,
            setup: self.setup,
            modules: self.modules.copy()?,
        })
    }
}

/// Which costs, beside those of modules, a network's file gives somewhere.
#[derive(Clone, Copy, Debug, PartialEq, Eq)]
pub struct Notes {
    pub fixed_cost: bool,
    pub routing_cost: bool,
    pub setup_cost: bool,
}

/// A network that passed its check. Its amounts and costs are whole numbers of units, and `places` says what a unit is: a
/// thousandth or a millionth.
#[derive(Drop)]
pub struct Network {
    nodes: List<Name>,
    links: List<Link>,
    notes: Notes,
    places: Places,
    pub ghost checked: { ∥ IsNetwork nodes links ∥₁ },
}

impl Copied for Network {
    fn copy(&self) -> Result<Network, NoMemory> {
        Ok(Network {
            nodes: self.nodes.copy()?,
            links: self.links.copy()?,
            notes: self.notes,
            places: self.places,
        })
    }
}

/// Why nodes and links are no network; the number is the place of the node or link in its list.
#[derive(Clone, Copy, Debug, PartialEq, Eq, Error)]
pub enum NetFault {
    /// More than 128 nodes.
    #[error("more than 128 nodes")]
    Nodes,
    /// More than 256 links.
    #[error("more than 256 links")]
    Links,
    /// An earlier node has the name.
    #[error("node {0}: the name of an earlier node")]
    DoubleNode(u32),
    /// An earlier link has the name.
    #[error("link {0}: the name of an earlier link")]
    DoubleLink(u32),
    /// An end is no node.
    #[error("link {0}: an end that is no node")]
    UnknownEnd(u32),
    /// Both ends are one node.
    #[error("link {0}: both ends are one node")]
    SelfLink(u32),
    /// A capacity or a cost is 2^40 units or more.
    #[error("link {0}: an amount of 2^40 units or more")]
    Amount(u32),
    /// More than 16 modules.
    #[error("link {0}: more than 16 modules")]
    Modules(u32),
    /// A module of capacity 0.
    #[error("link {0}: a module of capacity 0")]
    ZeroModule(u32),
    /// Pre-installed capacity and no module.
    #[error("link {0}: pre-installed capacity and no module")]
    FixedLink(u32),
}

fn is_large(amount: u64) -> bool
    ensures { result ≡ is_large amount }
{
    amount >= TOO_LARGE
}

fn has_large_amount(l: &Link) -> bool
    ensures { result ≡ has_large_amount l.now }
{
    is_large(l.fixed) || is_large(l.setup) || has_large_module(l.modules.items())
}

fn has_large_module(modules: &[Module]) -> bool
    ensures { result ≡ list_any (λ m. is_large m.capacity || is_large m.cost) modules.now }
{
    modules
        .iter()
        .any(|m| is_large(m.capacity) || is_large(m.cost))
}

fn has_zero_module(modules: &[Module]) -> bool
    ensures { result ≡ list_any (λ m. m.capacity == 0) modules.now }
{
    modules.iter().any(|m| m.capacity == 0)
}

/// Whether a node earlier in the list has the name.
fn is_node_among(name: &Name, earlier: &[Name]) -> bool
    ensures { result ≡ is_named (λ x. x) name.now earlier.now }
{
    earlier.iter().any(|other| *other == *name)
}

/// Whether a link earlier in the list has the name.
fn is_link_among(name: &Name, earlier: &[Link]) -> bool
    ensures { result ≡ is_named (λ e. e.name) name.now earlier.now }
{
    earlier.iter().any(|other| other.name == *name)
}

/// The first fault of a link after earlier ones.
fn link_fault(nodes: usize, earlier: &[Link], l: &Link) -> Option<NetFault>
    requires { length earlier.now < 2 ^ 32 }
    ensures { result ≡ first_fault (link_tests nodes earlier.now l.now) }
{
    let at = earlier.len() as u32;
    if is_link_among(&l.name, earlier) {
        return Some(NetFault::DoubleLink(at));
    }
    if !((l.a.0 as usize) < nodes && (l.b.0 as usize) < nodes) {
        return Some(NetFault::UnknownEnd(at));
    }
    if l.a.0 == l.b.0 {
        return Some(NetFault::SelfLink(at));
    }
    if has_large_amount(l) {
        return Some(NetFault::Amount(at));
    }
    if l.modules.len() > 16 {
        return Some(NetFault::Modules(at));
    }
    if has_zero_module(l.modules.items()) {
        return Some(NetFault::ZeroModule(at));
    }
    if l.modules.len() == 0 && l.fixed > 0 {
        return Some(NetFault::FixedLink(at));
    }
    None
}

/// The first fault of the links.
fn first_link_fault(nodes: usize, links: &[Link]) -> Option<NetFault>
    requires { length links.now < 2 ^ 32 }
    ensures { result ≡ first_fault (links_tests nodes [] links.now) }
{
    for i in 0..links.len() {
        let fault = link_fault(nodes, &links[..i], &links[i]);
        if fault.is_some() {
            return fault;
        }
    }
    None
}

/// The first name that an earlier node has.
fn first_node_fault(nodes: &[Name]) -> Option<NetFault>
    requires { length nodes.now < 2 ^ 32 }
    ensures { result ≡ first_fault (nodes_tests [] nodes.now) }
{
    for i in 0..nodes.len() {
        if is_node_among(&nodes[i], &nodes[..i]) {
            return Some(NetFault::DoubleNode(i as u32));
        }
    }
    None
}

fn network_fault(nodes: &[Name], links: &[Link]) -> Option<NetFault>
    ensures { result ≡ network_fault nodes.now links.now }
{
    if nodes.len() > MOST_NODES {
        return Some(NetFault::Nodes);
    }
    if links.len() > MOST_LINKS {
        return Some(NetFault::Links);
    }
    let fault = first_node_fault(nodes);
    if fault.is_some() {
        return fault;
    }
    first_link_fault(nodes.len(), links)
}

/// Makes the setup cost of each link 0.
fn drop_setups(links: &mut [Link])
    ensures { links.new ≡ without_setups links.old }
{
    for e in 0..links.len() {
        links[e].setup = 0;
    }
}

fn settled_links(charge: bool, mut links: List<Link>) -> List<Link>
    ensures { result ≡ settled_links charge links }
{
    if !charge {
        drop_setups(links.items_mut());
    }
    links
}

fn settled_notes(charge: bool, mut notes: Notes) -> Notes
    ensures { result ≡ settled_notes charge notes }
{
    if charge {
        notes.setup_cost = false;
    }
    notes
}

impl Network {
    /// The network of these parts, which are dropped at a refusal; `places` says what a unit of its amounts is. It compares each
    /// name with all before it, so it takes time in the squares of the numbers of nodes and links. It asks for no memory.
    ///
    /// ```text
    /// let net = Network::check(nodes, links, notes, Places::Three)?;    // of A, B and C, and of AB, BC and AC between them: the triangle
    /// // NetFault::SelfLink(1) where BC has both ends at B, and NetFault::DoubleLink(2) where AC is named AB, too
    /// ```
    pub fn check(
        nodes: List<Name>,
        links: List<Link>,
        notes: Notes,
        places: Places,
    ) -> Result<Network, NetFault>
        ensures faults { MatchResult result (λ _. network_fault nodes links ≡ None) (λ f. network_fault nodes links ≡ Some f) }
        ensures accepted { IsNetwork nodes links → IsOk result }
        ensures parts { MatchResult result (λ net. (net.nodes ≡ nodes) × (net.links ≡ links) × (net.notes ≡ notes) × (net.places ≡ places)) (λ _. Unit {0}) }
    {
        match network_fault(nodes.items(), links.items()) {
            Some(fault) => Err(fault),
            None => Ok(Network {
                nodes,
                links,
                notes,
                places,
            }),
        }
    }

    /// The network with its setup costs kept or dropped for good. Where they are charged, all stays but the note of them, which
    /// becomes false; else each becomes 0, and the note stays. It takes time in the number of links, and no memory.
    ///
    /// A link with a setup of 3,000 and a module of 10,000 for 5,000 costs 8,000 with one module where setups are charged, and
    /// 5,000 where they aren't.
    pub fn settle(self, charge: bool) -> Network
        ensures nodes { result.nodes ≡ self.nodes }
        ensures links { result.links ≡ settled_links charge self.links }
        ensures notes { result.notes ≡ settled_notes charge self.notes }
        ensures places { result.places ≡ self.places }
    {
        Network {
            nodes: self.nodes,
            links: settled_links(charge, self.links),
            notes: settled_notes(charge, self.notes),
            places: self.places,
        }
    }

    /// The names of the nodes, without a copy. It takes constant time.
    pub fn nodes(&self) -> &List<Name>
        ensures { result.now ≡ self.now.nodes }
    {
        &self.nodes
    }

    /// The links, without a copy. It takes constant time.
    pub fn links(&self) -> &List<Link>
        ensures { result.now ≡ self.now.links }
    {
        &self.links
    }

    /// Which further costs the file gives and no plan counts. It takes constant time.
    pub fn notes(&self) -> Notes
        ensures { result ≡ self.now.notes }
    {
        self.notes
    }

    /// How many digits after the point the amounts have, and so what a unit is.
    /// It takes constant time, as `nodes`, `links` and `notes` do.
    pub fn places(&self) -> Places
        ensures { result ≡ self.now.places }
    {
        self.places
    }
}
