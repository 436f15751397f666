use crate::rows::{CutRow, cuts, terms, worked};
use net_core::{Caps, Evidence, LinkId, List, NoMemory, Problem, RouteColumn, StateId, WideKind};
use plan_types::{Cause, Certificate, Plan, Quality};
use std::alloc::Global;
use tree_check::{BoxCert, Line, Node, Proof, TreeAnswer, Verdict, check_tree};

/// Lines of a certificate: indices of cuts with their numerators.
pub(crate) type LineRow = (u32, u64);

/// A node of a tree.
#[derive(Clone, Copy)]
pub(crate) enum NodeRow {
    Split(u32, u32, u64),
    Closed(u128, &'static [LineRow]),
    Empty(u32),
    Spent(u128, &'static [LineRow]),
    /// A denominator, the state of the evidence and its capacities.
    Stuck(u128, u32, &'static [u128]),
}

/// A divided line: its divisor, and indices of earlier lines with their numerators.
pub(crate) type DividedRow = (u128, &'static [LineRow]);

/// The cuts and further lines of a tree.
#[derive(Clone, Copy)]
pub(crate) struct Named<'a> {
    pub cuts: &'a [CutRow],
    pub lines: &'a [DividedRow],
}

/// A tree with its verdict, and what a check says of it.
pub(crate) type TreeRow = (&'static [NodeRow], Verdict, TreeAnswer);

fn certificate(alloc: Global, den: u128, rows: &[LineRow]) -> Result<BoxCert, NoMemory> {
    Ok(BoxCert {
        den,
        lines: terms(alloc, rows)?,
    })
}

/// Evidence of the slacks' basis at these capacities.
fn evidence(alloc: Global, state: u32, nums: &[u128]) -> Result<Evidence, NoMemory> {
    let mut basis = List::new(alloc);
    for e in 0..3 {
        basis.push(RouteColumn::LinkSlack(LinkId(e)))?;
    }
    basis.push(RouteColumn::DemandSlack(0))?;
    Ok(Evidence::Route {
        state: StateId(state),
        caps: Caps {
            scale: 1,
            nums: List::from_slice(alloc, nums)?,
        },
        basis,
        kind: WideKind::Common,
    })
}

fn node(alloc: Global, row: &NodeRow) -> Result<Node, NoMemory> {
    match row {
        NodeRow::Split(link, module, at) => Ok(Node::Split {
            link: LinkId(*link),
            module: *module,
            at: *at,
        }),
        NodeRow::Closed(den, lines) => Ok(Node::Closed(certificate(alloc, *den, lines)?)),
        NodeRow::Empty(cut) => Ok(Node::Empty { cut: *cut }),
        NodeRow::Spent(den, lines) => Ok(Node::Spent(certificate(alloc, *den, lines)?)),
        NodeRow::Stuck(den, state, nums) => Ok(Node::Stuck(
            certificate(alloc, *den, &[])?,
            evidence(alloc, *state, nums)?,
        )),
    }
}

fn put_nodes(alloc: Global, tree: &mut List<Node>, rows: &[NodeRow]) -> Result<(), NoMemory> {
    for row in rows {
        tree.push(node(alloc, row)?)?;
    }
    Ok(())
}

fn divided(alloc: Global, rows: &[DividedRow]) -> Result<List<Line>, NoMemory> {
    let mut lines = List::new(alloc);
    for (divisor, rows) in rows {
        lines.push(Line::Divided {
            divisor: *divisor,
            terms: terms(alloc, rows)?,
        })?;
    }
    Ok(lines)
}

/// A plan of this cost and nothing else.
pub(crate) fn plan_of(alloc: Global, cost: u128) -> Plan {
    Plan {
        version: 0,
        position: 0,
        demands: List::new(alloc),
        counts: List::new(alloc),
        cost,
        routings: List::new(alloc),
        certificate: Certificate {
            den: 1,
            lines: List::new(alloc),
        },
        raw_num: 0,
        raw_den: 1,
        bound: 0,
        quality: Quality::Loose(Cause::Cuts),
    }
}

/// A plan of this cost, and an empty tree with this verdict.
fn empty_proof(alloc: Global, cost: u128, verdict: Verdict) -> Proof {
    Proof {
        plan: plan_of(alloc, cost),
        cuts: List::new(alloc),
        lines: List::new(alloc),
        tree: List::new(alloc),
        verdict,
    }
}

/// Fills an empty tree with cuts, lines and nodes.
fn fill(alloc: Global, made: &mut Proof, named: &Named, rows: &[NodeRow]) -> Result<(), NoMemory> {
    made.cuts = cuts(alloc, named.cuts)?;
    made.lines = divided(alloc, named.lines)?;
    put_nodes(alloc, &mut made.tree, rows)
}

/// What a check says of a plan with a tree; `None` if the tree has a thousand nodes or more.
pub(crate) fn answer_of(alloc: Global, p: &Problem, proof: &Proof) -> Option<TreeAnswer> {
    if proof.tree.len() < 1000 {
        Some(check_tree(alloc, &p.net, &p.states, &p.demands, proof))
    } else {
        None
    }
}

/// Whether a check says this of a tree on the triangle.
fn is_answered(alloc: Global, p: &Problem, cost: u128, named: &Named, row: &TreeRow) -> bool {
    let mut made = empty_proof(alloc, cost, row.1);
    fill(alloc, &mut made, named, row.0).is_ok() && answer_of(alloc, p, &made) == Some(row.2)
}

/// The first tree of which a check doesn't say on the triangle what its row does.
fn first_unlike(
    alloc: Global,
    p: &Problem,
    cost: u128,
    named: &Named,
    rows: &[TreeRow],
) -> Option<usize> {
    for i in 0..rows.len() {
        if !is_answered(alloc, p, cost, named, &rows[i]) {
            return Some(i);
        }
    }
    None
}

/// The first tree of which a check doesn't say what its row does.
pub(crate) fn first_wrong(
    alloc: Global,
    cost: u128,
    named: &Named,
    rows: &[TreeRow],
) -> Option<usize> {
    match worked(alloc, 0) {
        None => Some(rows.len()),
        Some(p) => first_unlike(alloc, &p, cost, named, rows),
    }
}
