ghost use Rattle.std.specs.Prelude.{◌∷◌, [], All, OnOk, codes, map};
ghost use Rattle.plan_report.specs.Terms.{link_name};
ghost use Rattle.text_kit.specs.Terms.{Verbatim, Whole};
ghost use Rattle.report_comments.{specs.Comments.{AddsLines, AddsSpaced, IsOneLine}, specs.ReportComments.IsOfRouting};
ghost use Rattle.tree_check.specs.declared.proof.Node.TheVariants.{Stuck as StuckNode};
ghost use Rattle.tree_lines.specs.TreeLines.{IsToldNode, box_certificate_items, node_items};

use crate::lines::put_multipliers;
use net_core::{Bytes, Demand, Evidence, Link, LinkId, NoMemory};
use report_comments::puts::{put_field, put_whole, put_word};
use report_comments::{put_evidence, put_link};
use tree_check::{BoxCert, Node};

/// Puts a word and a certificate of a box last.
fn put_certificate(text: &mut Bytes, word: &[u8], cert: &BoxCert) -> Result<(), NoMemory>
    requires { IsOneLine word.now }
    ensures { OnOk result (AddsSpaced text.old (Verbatim word.now ∷ box_certificate_items cert.now) text.new) }
{
    put_field(text, word, cert.den)?;
    put_multipliers(text, cert.lines.items())
}

/// Puts the words of a split last: its link's name, the module's place there and the number.
fn put_split(
    text: &mut Bytes,
    links: &[Link],
    link: LinkId,
    place: u32,
    number: u64,
) -> Result<(), NoMemory>
    ensures { OnOk result (AddsSpaced text.old
        (Verbatim (codes "split") ∷ Verbatim (link_name links.now link) ∷ Whole place ∷ Whole number ∷ []) text.new) }
{
    put_link(text, b"split", links, link)?;
    put_whole(text, place as u128)?;
    put_whole(text, number as u128)
}

/// Puts the words of a leaf of one choice of counts last, whose evidence is of a program that routes.
fn put_stuck(
    text: &mut Bytes,
    links: &[Link],
    demands: &[Demand],
    cert: &BoxCert,
    evidence: &Evidence,
) -> Result<(), NoMemory>
    requires { IsOfRouting evidence.now }
    ensures { OnOk result (AddsSpaced text.old (node_items links.now demands.now (StuckNode cert.now evidence.now)) text.new) }
{
    put_certificate(text, b"stuck", cert)?;
    put_word(text, b"wide")?;
    put_evidence(text, links, demands, evidence)
}

/// Puts the words of a node last.
fn put_words(
    text: &mut Bytes,
    links: &[Link],
    demands: &[Demand],
    node: &Node,
) -> Result<(), NoMemory>
    requires { IsToldNode node.now }
    ensures { OnOk result (AddsSpaced text.old (node_items links.now demands.now node.now) text.new) }
{
    match node {
        Node::Split { link, module, at } => put_split(text, links, *link, *module, *at),
        Node::Closed(cert) => put_certificate(text, b"closed", cert),
        Node::Empty { cut } => put_field(text, b"empty", *cut as u128),
        Node::Spent(cert) => put_certificate(text, b"spent", cert),
        Node::Stuck(cert, evidence) => put_stuck(text, links, demands, cert, evidence),
    }
}

/// Puts the comment line of a node last.
fn put_node(
    text: &mut Bytes,
    links: &[Link],
    demands: &[Demand],
    node: &Node,
) -> Result<(), NoMemory>
    requires { IsToldNode node.now }
    ensures { OnOk result (AddsLines text.old (node_items links.now demands.now node.now ∷ []) text.new) }
{
    text.append(b"#")?;
    put_words(text, links, demands, node)?;
    text.append(b"\n")
}

/// Puts a comment line for each node last.
pub(crate) fn put_nodes(
    text: &mut Bytes,
    links: &[Link],
    demands: &[Demand],
    nodes: &[Node],
) -> Result<(), NoMemory>
    requires { All IsToldNode nodes.now }
    ensures { OnOk result (AddsLines text.old (map (node_items links.now demands.now) nodes.now) text.new) }
{
    for node in nodes {
        put_node(text, links, demands, node)?;
    }
    Ok(())
}
