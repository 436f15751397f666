ghost use Rattle.std.specs.Prelude.{◌≡◌, map, IfOk};
ghost use Rattle.snd_tokens.specs.Terms.{left};
ghost use Rattle.text_kit.specs.Terms.{ReadsAs};
ghost use Rattle.report_words.specs.ReportWords.{link_at, link_of, node_at, node_of_word};

use crate::fault::{ReportKind, ReportRefusal};
use crate::places::Places;
use crate::words::unknown_name;
use net_core::{LinkId, Network, NoMemory, NodeId, States};
use snd_tokens::Cursor;
use std::alloc::Global;
use text_kit::steps::{placed, word};

/// A network and its states, whose links and nodes are found by their names, in time that doesn't
/// grow with their number.
#[derive(Drop)]
pub struct Context<'a> {
    pub net: &'a Network,
    pub states: &'a States,
    links: Places<'a>,
    nodes: Places<'a>,
    ghost link_names: { links ≡ map (λ l. l.name) net.now.links },
    ghost node_names: { nodes ≡ net.now.nodes },
}

/// The names of a network's links, which are all different.
fn link_places(alloc: Global, net: &Network) -> Result<Places<'_>, NoMemory>
    ensures { IfOk result (λ p. p ≡ map (λ l. l.name) net.now.links) }
{
    let mut places = Places::new(alloc);
    let links = net.links().items();
    for link in links {
        if !places.add(link.name.bytes())? {
            unreachable!();
        }
    }
    Ok(places)
}

/// The names of a network's nodes, which are all different.
fn node_places(alloc: Global, net: &Network) -> Result<Places<'_>, NoMemory>
    ensures { IfOk result (λ p. p ≡ net.now.nodes) }
{
    let mut places = Places::new(alloc);
    let nodes = net.nodes().items();
    for node in nodes {
        if !places.add(node.bytes())? {
            unreachable!();
        }
    }
    Ok(places)
}

impl<'a> Context<'a> {
    /// A network and its states. It takes time and memory in the number of nodes and links, whose
    /// names it lends, and fails only where memory runs out.
    pub fn new(alloc: Global, net: &'a Network, states: &'a States) -> Result<Context<'a>, NoMemory>
        ensures net { IfOk result (λ c. c.net.now ≡ net.now) }
        ensures states { IfOk result (λ c. c.states.now ≡ states.now) }
    {
        let links = link_places(alloc, net)?;
        let nodes = node_places(alloc, net)?;
        Ok(Context {
            net,
            states,
            links,
            nodes,
        })
    }

    /// The link that a word names.
    fn link_of(&self, word: &[u8]) -> Result<LinkId, ReportKind>
        ensures { result ≡ link_of self.now.net.now.links word.now }
    {
        match self.links.find(word) {
            Some(place) => Ok(LinkId(place as u32)),
            None => Err(unknown_name(word)),
        }
    }

    /// Takes the name of a link, and gives the link's number, from 0. A name that no link has is
    /// `unknown-name`, or `limit-name` if it has more than 255 bytes.
    pub fn link(&self, text: &mut Cursor) -> Result<LinkId, ReportRefusal>
        ensures { ReadsAs (λ e. e) result (left text.new) (link_at self.now.net.now.links (left text.old)) }
    {
        let (at, word) = word(ReportKind::Token, ReportKind::Ended, text)?;
        placed(at, self.link_of(word))
    }

    /// The node that a word names. A name that no node has is `unknown-name`, or `limit-name` if it has more than 255 bytes.
    pub fn node_of(&self, word: &[u8]) -> Result<NodeId, ReportKind>
        ensures { result ≡ node_of_word self.now.net.now.nodes word.now }
    {
        match self.nodes.find(word) {
            Some(place) => Ok(NodeId(place as u32)),
            None => Err(unknown_name(word)),
        }
    }

    /// Takes the name of a node, and gives the node's number, from 0. A name that no node has is
    /// `unknown-name`, or `limit-name` if it has more than 255 bytes.
    pub fn node(&self, text: &mut Cursor) -> Result<NodeId, ReportRefusal>
        ensures { ReadsAs (λ n. n) result (left text.new) (node_at self.now.net.now.nodes (left text.old)) }
    {
        let (at, word) = word(ReportKind::Token, ReportKind::Ended, text)?;
        placed(at, self.node_of(word))
    }
}
