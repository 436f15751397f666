ghost use Rattle.std.specs.Prelude.{◌∷◌, [], OnOk};
ghost use Rattle.text_kit.specs.Terms.{Money};
ghost use Rattle.report_comments.specs.Comments.{AddsLines, AddsSpaced};
ghost use Rattle.tree_lines.specs.TreeLines.{IsToldProof, proof_lines, verdict_items};

use crate::cuts::put_cuts;
use crate::lines::put_lines;
use crate::nodes::put_nodes;
use net_core::{Bytes, Demand, Link, NoMemory, Places};
use report_comments::puts::put_word;
use text_kit::write::put_money_word;
use tree_check::{Proof, Verdict};

/// Puts money last, after a space.
fn put_money(text: &mut Bytes, places: Places, n: u128) -> Result<(), NoMemory>
    ensures { OnOk result (AddsSpaced text.old (Money places n ∷ []) text.new) }
{
    text.append(b" ")?;
    put_money_word(text, places, n)
}

/// Puts the words of a verdict last.
fn put_words(text: &mut Bytes, places: Places, verdict: &Verdict) -> Result<(), NoMemory>
    ensures { OnOk result (AddsSpaced text.old (verdict_items places verdict.now) text.new) }
{
    match verdict {
        Verdict::Cheapest => put_word(text, b"cheapest"),
        Verdict::Above(least) => {
            put_word(text, b"above")?;
            put_money(text, places, *least)
        }
    }
}

/// Puts the comment line of a verdict last.
fn put_verdict(text: &mut Bytes, places: Places, verdict: &Verdict) -> Result<(), NoMemory>
    ensures { OnOk result (AddsLines text.old (verdict_items places verdict.now ∷ []) text.new) }
{
    text.append(b"#")?;
    put_words(text, places, verdict)?;
    text.append(b"\n")
}

/// Puts the comment lines of a proof last: of each cut, as `# box-cut 0 1 12000 1 0 1` for the cut of index 0 in state 1 with the right side
/// 12000 and the lengths 1 0 1; of each further line, as `# line 1 10000 1 0` for the line of index 1, once the cut of index 0 over 10000,
/// or `# table 2 0 failing 1`, a table line over that cut with one weight; of each node in preorder, as `# split AC 0 1`, `# closed 2 1 0` for
/// the half of that cut, `# empty 0`, `# spent 1` or `# stuck 1 wide ..`; and of the verdict, `# cheapest` or `# above 25.000`, whose money
/// has these places.
///
/// It takes time in the number of the bytes that it puts, and asks for memory only where the text has no room left; where memory runs out,
/// the text may end in part of the lines.
pub fn put_proof(
    text: &mut Bytes,
    links: &[Link],
    demands: &[Demand],
    places: Places,
    proof: &Proof,
) -> Result<(), NoMemory>
    requires { IsToldProof proof.now }
    ensures { OnOk result (AddsLines text.old (proof_lines links.now demands.now places proof.now) text.new) }
{
    put_cuts(text, proof.cuts.items())?;
    put_lines(text, proof.cuts.len(), proof.lines.items())?;
    put_nodes(text, links, demands, proof.tree.items())?;
    put_verdict(text, places, &proof.verdict)
}
