//! Tests of what is read from the text of trees, and of what a check says of it.
use crate::rows::worked;
use crate::texts::{LINED_TREE, TREE, changed, read};
use crate::tree_rows::{answer_of, plan_of};
use net_core::{CutLine, Evidence, List, Problem, WideKind};
use std::alloc::Global;
use tree_check::TreeAnswer::{Accepted, Rejected};
use tree_check::{
    BoxCert, Line, Multiplier, Node, Proof, TableKind, TreeAnswer, Verdict, check_tree,
};
use tree_reader::ReadTree;

/// A numerator with the index of its line.
type TermRow = (u64, u32);

/// A cut: its state, its right side and its lengths.
type CutRow = (u32, u128, &'static [u32]);

/// A further line.
#[derive(Clone, Copy)]
enum LineRow {
    Divided(u128, &'static [TermRow]),
    Table(u32, TableKind, &'static [u32]),
}

/// A node; of a stuck one the capacities of its evidence.
#[derive(Clone, Copy)]
enum NodeRow {
    Split(u32, u32, u64),
    Closed(u128, &'static [TermRow]),
    Empty(u32),
    Spent(u128, &'static [TermRow]),
    Stuck(u128, &'static [u128]),
}

/// What a tree says.
#[derive(Clone, Copy)]
struct TreeRow {
    cuts: &'static [CutRow],
    lines: &'static [LineRow],
    nodes: &'static [NodeRow],
    verdict: Verdict,
}

/// What is read from the triangle's tree.
const SAID: TreeRow = TreeRow {
    cuts: &[
        (0, 12000, &[1, 0, 1]),
        (0, 12000, &[0, 1, 1]),
        (2, 12000, &[0, 0, 1]),
        (3, 24000, &[1, 1, 0]),
        (1, 12000, &[0, 0, 1]),
        (2, 12000, &[1, 0, 1]),
        (3, 12000, &[1, 0, 0]),
        (3, 12000, &[0, 1, 0]),
    ],
    lines: &[],
    nodes: &[
        NodeRow::Split(2, 0, 1),
        NodeRow::Empty(4),
        NodeRow::Split(0, 0, 1),
        NodeRow::Empty(6),
        NodeRow::Split(1, 0, 0),
        NodeRow::Empty(7),
        NodeRow::Closed(2, &[(1, 7)]),
    ],
    verdict: Verdict::Cheapest,
};

/// What is read from the tree with lines of each kind.
const LINES_SAID: TreeRow = TreeRow {
    cuts: &[(1, 12000, &[0, 0, 1])],
    lines: &[
        LineRow::Divided(10000, &[(3, 0)]),
        LineRow::Table(0, TableKind::Failing, &[1, 2]),
        LineRow::Table(0, TableKind::Plain, &[4294967295]),
    ],
    nodes: &[
        NodeRow::Split(2, 0, 18446744073709551615),
        NodeRow::Stuck(1, &[1, 2, 3]),
        NodeRow::Spent(2, &[(1, 0), (2, 1)]),
    ],
    verdict: Verdict::Above(25000),
};

/// The place of a line of the triangle's tree, what replaces the line, and what a check says then.
const CHECKED: [(usize, &[u8], TreeAnswer); 4] = [
    (16, b"", Accepted),
    (7, b"", Rejected(5)),
    (12, b"", Rejected(4)),
    (14, b"# closed 2 1 6\n", Rejected(6)),
];

fn are_terms(terms: &[Multiplier], rows: &[TermRow]) -> bool {
    terms.len() == rows.len()
        && terms
            .iter()
            .zip(rows)
            .all(|(term, row)| (term.num, term.cut) == *row)
}

fn is_certificate(cert: &BoxCert, den: u128, rows: &[TermRow]) -> bool {
    cert.den == den && are_terms(cert.lines.items(), rows)
}

fn is_cut(cut: &CutLine, row: &CutRow) -> bool {
    cut.state.0 == row.0 && cut.right == row.1 && cut.lengths.items() == row.2
}

fn is_line(line: &Line, row: &LineRow) -> bool {
    match (line, row) {
        (Line::Divided { divisor, terms }, LineRow::Divided(by, rows)) => {
            divisor == by && are_terms(terms.items(), rows)
        }
        (
            Line::Table {
                line,
                kind,
                weights,
            },
            LineRow::Table(of, told, numbers),
        ) => { line == of && kind == told && weights.items() == *numbers }
        _ => false,
    }
}

/// Whether evidence is of state 0, a number's common denominator, and these capacities.
fn is_evidence(evidence: &Evidence, nums: &[u128]) -> bool {
    match evidence {
        Evidence::Route {
            state,
            caps,
            basis,
            kind,
        } => {
            state.0 == 0
                && caps.scale == 1
                && caps.nums.items() == nums
                && basis.len() == 4
                && matches!(kind, WideKind::Common)
        }
        Evidence::Master { .. } => false,
    }
}

fn is_node(node: &Node, row: &NodeRow) -> bool {
    match (node, row) {
        (Node::Split { link, module, at }, NodeRow::Split(e, place, number)) => {
            (link.0, *module, *at) == (*e, *place, *number)
        }
        (Node::Closed(cert), NodeRow::Closed(den, rows)) => is_certificate(cert, *den, rows),
        (Node::Empty { cut }, NodeRow::Empty(index)) => cut == index,
        (Node::Spent(cert), NodeRow::Spent(den, rows)) => is_certificate(cert, *den, rows),
        (Node::Stuck(cert, evidence), NodeRow::Stuck(den, nums)) => {
            is_certificate(cert, *den, &[]) && is_evidence(evidence, nums)
        }
        _ => false,
    }
}

/// Whether cuts are these, in their order.
fn are_cuts(cuts: &[CutLine], rows: &[CutRow]) -> bool {
    for i in 0..rows.len() {
        match cuts.get(i) {
            Some(cut) if is_cut(cut, &rows[i]) => {}
            _ => return false,
        }
    }
    cuts.len() == rows.len()
}

/// Whether lines are these, in their order.
fn are_lines(lines: &[Line], rows: &[LineRow]) -> bool {
    for i in 0..rows.len() {
        match lines.get(i) {
            Some(line) if is_line(line, &rows[i]) => {}
            _ => return false,
        }
    }
    lines.len() == rows.len()
}

/// Whether nodes are these, in their order.
fn are_nodes(nodes: &[Node], rows: &[NodeRow]) -> bool {
    for i in 0..rows.len() {
        match nodes.get(i) {
            Some(node) if is_node(node, &rows[i]) => {}
            _ => return false,
        }
    }
    nodes.len() == rows.len()
}

/// Whether a tree says what a row does.
fn is_said(tree: &ReadTree, row: &TreeRow) -> bool {
    are_cuts(tree.cuts.items(), row.cuts)
        && are_lines(tree.lines.items(), row.lines)
        && are_nodes(tree.tree.items(), row.nodes)
        && tree.verdict == row.verdict
}

/// The tree that is read from these lines, one of which is replaced.
fn tree_of(
    alloc: Global,
    p: &Problem,
    lines: &[&[u8]],
    place: usize,
    by: &[u8],
) -> Option<ReadTree> {
    let text = changed(alloc, lines, place, by).ok()?;
    read(alloc, p, text.items()).ok()
}

/// Whether these lines are read on the triangle as a row says.
fn says_on(alloc: Global, p: &Problem, lines: &[&[u8]], row: &TreeRow) -> bool {
    match tree_of(alloc, p, lines, lines.len(), b"") {
        Some(tree) => is_said(&tree, row),
        None => false,
    }
}

/// Whether these lines are read as a row says.
fn says(alloc: Global, lines: &[&[u8]], row: &TreeRow) -> bool {
    match worked(alloc, 0) {
        Some(p) => says_on(alloc, &p, lines, row),
        None => false,
    }
}

/// A plan that costs 30.00, with a tree.
fn proof_of(alloc: Global, tree: ReadTree) -> Proof {
    Proof {
        plan: plan_of(alloc, 30000),
        cuts: tree.cuts,
        lines: tree.lines,
        tree: tree.tree,
        verdict: tree.verdict,
    }
}

/// What a check says of a tree of such a plan.
pub(crate) fn answer_to(alloc: Global, p: &Problem, tree: ReadTree) -> Option<TreeAnswer> {
    let proof = proof_of(alloc, tree);
    answer_of(alloc, p, &proof)
}

/// Whether a check says this of the triangle's tree, one line of which is replaced.
fn is_checked(alloc: Global, p: &Problem, place: usize, by: &[u8], answer: TreeAnswer) -> bool {
    match tree_of(alloc, p, &TREE, place, by) {
        Some(tree) => answer_to(alloc, p, tree) == Some(answer),
        None => false,
    }
}

/// The first row of which a check says something else on the triangle.
fn first_unlike(alloc: Global, p: &Problem) -> Option<usize> {
    for i in 0..CHECKED.len() {
        let (place, by, answer) = CHECKED[i];
        if !is_checked(alloc, p, place, by, answer) {
            return Some(i);
        }
    }
    None
}

/// The first row of which a check says something else.
fn first_wrong(alloc: Global) -> Option<usize> {
    match worked(alloc, 0) {
        None => Some(CHECKED.len()),
        Some(p) => first_unlike(alloc, &p),
    }
}

#[test]
fn trees_are_read_as_their_text_says(rt: HostRuntime) {
    assert!(rt; says(rt.alloc(), &TREE, &SAID));
    assert!(rt; says(rt.alloc(), &LINED_TREE, &LINES_SAID));
}

#[test]
fn trees_that_were_read_are_checked(rt: HostRuntime) {
    let wrong = first_wrong(rt.alloc());
    assert!(rt; wrong.is_none(), "row {}", wrong.unwrap_or(0));
}
