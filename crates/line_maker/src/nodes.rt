ghost use Rattle.std.specs.Prelude.{◌≡◌, IfOk, map, slice_index_or};
ghost use Rattle.line_maker.specs.Orders.{moved_certificate, moved_line, moved_multipliers, moved_node};

use crate::places::place_at;
use line_check::{Line, Multiplier};
use net_core::{List, NoMemory};
use std::alloc::Global;
use tree_check::{BoxCert, Node};

/// Numerators by their new indices.
fn moved_multipliers(
    alloc: Global,
    places: &[u32],
    multipliers: List<Multiplier>,
) -> Result<List<Multiplier>, NoMemory>
    ensures { IfOk result (λ moved. moved ≡ moved_multipliers (λ i. slice_index_or places.now i i) multipliers) }
{
    let mut moved = List::new(alloc);
    for m in multipliers.into_vec() {
        moved.push(Multiplier {
            num: m.num,
            cut: place_at(places, m.cut),
        })?;
    }
    Ok(moved)
}

/// A line by its new indices.
pub(crate) fn moved_line(alloc: Global, places: &[u32], line: Line) -> Result<Line, NoMemory>
    ensures { IfOk result (λ moved. moved ≡ moved_line (λ i. slice_index_or places.now i i) line) }
{
    match line {
        Line::Divided { divisor, terms } => Ok(Line::Divided {
            divisor,
            terms: moved_multipliers(alloc, places, terms)?,
        }),
        Line::Table {
            line,
            kind,
            weights,
        } => Ok(Line::Table {
            line: place_at(places, line),
            kind,
            weights,
        }),
    }
}

/// A certificate by its new indices.
fn moved_certificate(alloc: Global, places: &[u32], cert: BoxCert) -> Result<BoxCert, NoMemory>
    ensures { IfOk result (λ moved. moved ≡ moved_certificate (λ i. slice_index_or places.now i i) cert) }
{
    Ok(BoxCert {
        den: cert.den,
        lines: moved_multipliers(alloc, places, cert.lines)?,
    })
}

/// A node by its new indices.
pub(crate) fn moved_node(alloc: Global, places: &[u32], node: Node) -> Result<Node, NoMemory>
    ensures { IfOk result (λ moved. moved ≡ moved_node (λ i. slice_index_or places.now i i) node) }
{
    match node {
        Node::Split { link, module, at } => Ok(Node::Split { link, module, at }),
        Node::Closed(cert) => Ok(Node::Closed(moved_certificate(alloc, places, cert)?)),
        Node::Empty { cut } => Ok(Node::Empty {
            cut: place_at(places, cut),
        }),
        Node::Spent(cert) => Ok(Node::Spent(moved_certificate(alloc, places, cert)?)),
        Node::Stuck(cert, evidence) => {
            let moved = moved_certificate(alloc, places, cert)?;
            Ok(Node::Stuck(moved, evidence))
        }
    }
}
