ghost use Rattle.std.specs.Prelude.{◌≡◌, ◌≤◌, ◌<◌, true, length, IfErr, IfOk, OnOk, None, Some};
ghost use Rattle.plan_terms.specs.Terms.{AreDemands};
ghost use Rattle.plan_report.specs.Terms.{known_of};
ghost use Rattle.snd_tokens.specs.Terms.{left};
ghost use Rattle.text_kit.specs.Terms.{AnswersAs, ReadsAs, place};
ghost use Rattle.report_words.{specs.ReportChoices.branch_of, specs.Terms.known_in};
ghost use Rattle.report_parts.specs.Readers.{reader_demands, reader_names};
ghost use Rattle.tree_reader.{specs.declared.tree.ReadTree.{ReadTree as Tree}, specs.CommentTexts.comments_from, specs.FirstFaults.IsNoEarlyTreeFault, specs.ReadingLines.{cut_branches, line_branches}, specs.ReadingTrees.{Gives, PutsLine, TakesLine, ended_by, tree_at, tree_line_at}, specs.Trees.SpellsTree};

use crate::cuts::{box_cut, divided, table};
use crate::lines::{NextLine, next_line};
use crate::nodes::node_line;
use crate::sofar::{Sofar, TreeLine};
use crate::tree::ReadTree;
use net_core::{Demands, List, Network, NoMemory, States};
use report_parts::demands::PlanDemands;
use report_parts::plan_reader::PlanReader;
use report_words::context::Context;
use report_words::fault::{ReportKind, ReportRefusal};
use snd_tokens::{Cursor, Next};
use std::alloc::Global;
use text_kit::Refusal;
use text_kit::refusal::bad;
use text_kit::steps::word;
use tree_check::Verdict;

/// The number of lines that can be told apart by their indices.
const MAX_LINES: usize = u32::MAX as usize;

pub(crate) const BOX_CUT: &[u8] = b"box-cut";

pub(crate) const LINE: &[u8] = b"line";

pub(crate) const TABLE: &[u8] = b"table";

/// Takes a further line with this index, a node or a verdict, after its word at a place.
fn further_line(
    reader: &PlanReader,
    index: usize,
    at: u64,
    word: &[u8],
    text: &mut Cursor,
) -> Result<TreeLine, ReportRefusal>
    ensures { ReadsAs (λ l. l) result (left text.new)
        (branch_of true (line_branches (reader_names reader.now) (reader_demands reader.now) index) at word.now (left text.old)) }
{
    if word == LINE {
        return divided(reader.alloc, index, text);
    }
    if word == TABLE {
        return table(reader.alloc, index, text);
    }
    node_line(reader, at, word, text)
}

/// Takes any line, after its word at a place.
fn any_line(
    reader: &PlanReader,
    index: usize,
    at: u64,
    word: &[u8],
    text: &mut Cursor,
) -> Result<TreeLine, ReportRefusal>
    ensures { ReadsAs (λ l. l) result (left text.new)
        (branch_of true (cut_branches (reader_names reader.now) (reader_demands reader.now) index) at word.now (left text.old)) }
{
    if word == BOX_CUT {
        return box_cut(reader.alloc, reader.context, index, text);
    }
    further_line(reader, index, at, word, text)
}

/// Takes what may follow the lines so far. There is no memory for 2^32 of a kind.
fn tree_line(
    reader: &PlanReader,
    sofar: &Sofar,
    text: &mut Cursor,
) -> Result<TreeLine, ReportRefusal>
    ensures { ReadsAs (λ l. l) result (left text.new) (tree_line_at (reader_names reader.now) (reader_demands reader.now) sofar.now (left text.old)) }
{
    let (at, word) = word(ReportKind::Token, ReportKind::Ended, text)?;
    if sofar.cuts.len() >= MAX_LINES {
        return Err(Refusal::NoMemory);
    }
    if sofar.lines.len() >= MAX_LINES {
        return Err(Refusal::NoMemory);
    }
    let index = sofar.cuts.len() + sofar.lines.len();
    if sofar.tree.len() > 0 {
        return node_line(reader, at, word, text);
    }
    if sofar.lines.len() > 0 {
        return further_line(reader, index, at, word, text);
    }
    any_line(reader, index, at, word, text)
}

/// Puts what a line tells last, or gives the verdict.
fn put_line(sofar: &mut Sofar, line: TreeLine) -> Result<Option<Verdict>, NoMemory>
    ensures { IfOk result (λ v. PutsLine sofar.old line v sofar.new) }
{
    match line {
        TreeLine::Cut(cut) => sofar.cuts.push(cut)?,
        TreeLine::Further(line) => sofar.lines.push(line)?,
        TreeLine::Branch(node) => sofar.tree.push(node)?,
        TreeLine::Last(verdict) => return Ok(Some(verdict)),
    }
    Ok(None)
}

/// Takes the next line, and gives the verdict where it is the last one.
#[tactic(auto, using(crate::proofs::Taking::line_taken))]
fn take_line(
    reader: &PlanReader,
    bytes: &[u8],
    sofar: &mut Sofar,
    at: &mut u64,
) -> Result<Option<Verdict>, ReportRefusal>
    requires { at.old ≤ length bytes.now }
    ensures turn { TakesLine (reader_names reader.now) (reader_demands reader.now) bytes.now result sofar.old at.old sofar.new at.new }
    ensures later { OnOk result (at.old < at.new) }
    ensures within { OnOk result (at.new ≤ length bytes.now) }
{
    match next_line(bytes, *at) {
        NextLine::Comment(words, end) => {
            let mut text = words;
            let line = tree_line(reader, sofar, &mut text)?;
            *at = end;
            let last = put_line(sofar, line)?;
            Ok(last)
        }
        NextLine::Other(place) => Err(bad(place, ReportKind::Token)),
        NextLine::End(place) => Err(bad(place, ReportKind::Ended)),
    }
}

/// The place of what is next.
fn next_place(text: Cursor) -> u64
    ensures { result ≡ place (left text.entry) }
{
    let mut ahead = text;
    match ahead.next() {
        Next::Word(at, _) | Next::Open(at) | Next::Close(at) | Next::End(at) => at,
    }
}

/// The tree of what was read, after whose verdict nothing may come from a place on.
fn ended(sofar: Sofar, verdict: Verdict, bytes: &[u8], at: u64) -> Result<ReadTree, ReportRefusal>
    requires { at ≤ length bytes.now }
    ensures { Gives result (ended_by sofar verdict (comments_from at bytes.now)) }
{
    match next_line(bytes, at) {
        NextLine::Comment(text, _) => Err(bad(next_place(text), ReportKind::Limit)),
        NextLine::Other(place) => Err(bad(place, ReportKind::Token)),
        NextLine::End(_) => Ok(ReadTree {
            cuts: sofar.cuts,
            lines: sofar.lines,
            tree: sofar.tree,
            verdict,
        }),
    }
}

/// All lines from a place on.
fn tree(reader: &PlanReader, bytes: &[u8], from: u64) -> Result<ReadTree, ReportRefusal>
    requires { from ≤ length bytes.now }
    ensures { Gives result (tree_at (reader_names reader.now) (reader_demands reader.now) from bytes.now) }
{
    let mut sofar = Sofar {
        cuts: List::new(reader.alloc),
        lines: List::new(reader.alloc),
        tree: List::new(reader.alloc),
    };
    let mut at = from;
    loop {
        if let Some(verdict) = take_line(reader, bytes, &mut sofar, &mut at)? {
            return ended(sofar, verdict, bytes, at);
        }
    }
}

/// All lines from a place on, which have these names.
fn named_tree(
    alloc: Global,
    context: &Context,
    demands: &PlanDemands,
    bytes: &[u8],
    from: u64,
) -> Result<ReadTree, ReportRefusal>
    requires { from ≤ length bytes.now }
    ensures { Gives result (tree_at (known_in context.now) demands.now.list from bytes.now) }
{
    let reader = PlanReader {
        alloc,
        context: &*context,
        demands: &*demands,
    };
    tree(&reader, bytes, from)
}

/// The branch tree that the comment lines of a text tell from a place on, where the report ends that has the plan. The network and the
/// states are those of the report, and the demands those of its plan, whose names the evidence of a leaf has.
///
/// ```text
/// let report = read_report(alloc, &net, &states, bytes)?;
/// let tree = read_tree(alloc, &net, &states, &plan.demands, bytes, report_end(bytes))?;
/// let proof = Proof { plan, cuts: tree.cuts, lines: tree.lines, tree: tree.tree, verdict: tree.verdict };     // for `check_tree`
/// ```
///
/// The first fault is told with its place in bytes from the beginning of the text, as a report's is: where something isn't a comment line, or
/// a line is out of its order, it is `token`; an index that isn't the next one, a number that is out of its range, or a line after the verdict is
/// `limit`; a text without a verdict is `ended`. It takes time in the bytes, and memory for what is read and for the places of the names.
pub fn read_tree(
    alloc: Global,
    net: &Network,
    states: &States,
    demands: &Demands,
    bytes: &[u8],
    from: u64,
) -> Result<ReadTree, ReportRefusal>
    requires demands { AreDemands (length net.now.nodes) demands.now }
    requires from { from ≤ length bytes.now }
    // What is read is in form and spelled.
    ensures found { IfOk result (λ t. SpellsTree (known_of net.now states.now) demands.now from bytes.now t) }
    // What is in form and spelled is read, unless memory runs out.
    ensures only { (t : Tree) → SpellsTree (known_of net.now states.now) demands.now from bytes.now t → AnswersAs (λ x. x) result t }
    // What is read is what reading from left to right gives, and a fault is the first one that it meets.
    ensures exact { Gives result (tree_at (known_of net.now states.now) demands.now from bytes.now) }
    // No fault is reported at too early a place.
    ensures not_early { IfErr result (IsNoEarlyTreeFault (known_of net.now states.now) demands.now from bytes.now) }
{
    let context = Context::new(alloc, net, states)?;
    let list = demands.items();
    let known = PlanDemands::of(alloc, list)?;
    named_tree(alloc, &context, &known, bytes, from)
}
