ghost use Rattle.std.specs.Prelude.{◌≡◌, ◌≤◌, ◌<◌, ◌^◌, All, OnOk, length, true};
ghost use Rattle.plan_terms.specs.Terms.{IsCut};
ghost use Rattle.tree_boxes.specs.Searches.{HasLearned, IsSearch, aimed, most_entries};

use crate::aim::Aim;
use crate::known::Mark;
use crate::search::Search;
use box_program::Solution;
use line_check::{Line, Tested};
use line_maker::{Entry, coarse_lines, lines_at};
use net_core::{Copied, CutLine, List, NoMemory};
use std::alloc::Global;
use table_maker::{Part, TableTask, narrow_lines, set_cuts, table_lines};
use tree_check::{BoxCert, Boxed};

/// In how many rounds lines are made at the box of all counts, and how many lines in each.
const ROUNDS: usize = 20;

const MOST_FIRST: usize = 40;

/// If a round's lines make a program too wide, the next round makes fewer by this factor.
const FEWER: usize = 3;

/// How many lines are made at each other box.
const MOST_IN_BOX: usize = 10;

/// Table lines are made if a link has more kinds of modules than this. With fewer kinds, divided lines tell nearly all that they tell.
const FEW_KINDS: usize = 2;

/// The greatest weight of a table line. Small weights keep the numbers of programs narrow.
const MOST_WEIGHT: u32 = 20;

/// Adds the lines that hold, as long as there is room.
fn push_lines(
    alloc: Global,
    aim: &Aim,
    search: &mut Search,
    lines: List<Line>,
) -> Result<(), NoMemory>
    requires search { IsSearch (aimed aim.now) search.old }
    requires room { most_entries search.old < 2 ^ 31 }
    requires divides { search.old.known.divides ≡ true }
    ensures search { OnOk result (IsSearch (aimed aim.now) search.new) }
    ensures learned { OnOk result (HasLearned search.old search.new) }
    ensures few { OnOk result (length search.new.known.entries ≤ most_entries search.old) }
{
    for line in lines.into_vec() {
        if search.known.entries.len() < search.room {
            search.known.push_line(alloc, aim.instance, line)?;
        }
    }
    Ok(())
}

/// Adds a cut, if there is room.
fn push_cut(alloc: Global, aim: &Aim, search: &mut Search, cut: CutLine) -> Result<(), NoMemory>
    requires search { IsSearch (aimed aim.now) search.old }
    requires room { most_entries search.old < 2 ^ 31 }
    requires sound { IsCut (aimed aim.now) cut }
    requires divides { search.old.known.divides ≡ true }
    ensures search { OnOk result (IsSearch (aimed aim.now) search.new) }
    ensures learned { OnOk result (HasLearned search.old search.new) }
    ensures few { OnOk result (length search.new.known.entries ≤ most_entries search.old) }
{
    if search.known.entries.len() >= search.room {
        return Ok(());
    }
    search.known.push(alloc, aim.instance, cut)
}

/// Adds cuts, as long as there is room.
fn push_cuts(
    alloc: Global,
    aim: &Aim,
    search: &mut Search,
    cuts: &[CutLine],
) -> Result<(), NoMemory>
    requires search { IsSearch (aimed aim.now) search.old }
    requires room { most_entries search.old < 2 ^ 31 }
    requires sound { All (IsCut (aimed aim.now)) cuts.now }
    requires divides { search.old.known.divides ≡ true }
    ensures search { OnOk result (IsSearch (aimed aim.now) search.new) }
    ensures learned { OnOk result (HasLearned search.old search.new) }
    ensures few { OnOk result (length search.new.known.entries ≤ most_entries search.old) }
{
    for i in 0..cuts.len() {
        push_cut(alloc, aim, search, cuts[i].copy()?)?;
    }
    Ok(())
}

/// Whether table lines are made: whether some link has more than two kinds of modules.
fn has_kinds(aim: &Aim) -> bool {
    let mut links = aim.instance.net.links().items().iter();
    links.any(|link| link.modules.len() > FEW_KINDS)
}

/// The cuts among entries.
fn cuts_of(alloc: Global, entries: &[Entry]) -> Result<List<CutLine>, NoMemory> {
    let mut cuts = List::new(alloc);
    for entry in entries {
        if let Entry::Cut(cut) = entry {
            cuts.push(cut.copy()?)?;
        }
    }
    Ok(cuts)
}

/// The amounts of a program's point, as numerators over its denominator.
fn parts_of(alloc: Global, solution: &Solution) -> Result<List<Part>, NoMemory> {
    let mut parts = List::new(alloc);
    for amount in solution.amounts.items() {
        let whole = amount.whole.saturating_mul(solution.den);
        parts.push(Part {
            link: amount.link,
            module: amount.module,
            parts: whole.saturating_add(amount.part),
        })?;
    }
    Ok(parts)
}

/// Adds cuts of node sets, and then the lines of small right sides from which table lines are made.
fn push_narrow(alloc: Global, aim: &Aim, search: &mut Search) -> Result<(), NoMemory>
    requires search { IsSearch (aimed aim.now) search.old }
    requires room { most_entries search.old < 2 ^ 31 }
    requires divides { search.old.known.divides ≡ true }
    ensures search { OnOk result (IsSearch (aimed aim.now) search.new) }
    ensures learned { OnOk result (HasLearned search.old search.new) }
    ensures few { OnOk result (length search.new.known.entries ≤ most_entries search.old) }
{
    let known = cuts_of(alloc, search.known.entries.items())?;
    let cuts = set_cuts(alloc, aim.instance, known.items())?;
    push_cuts(alloc, aim, search, cuts.items())?;
    let lines = narrow_lines(alloc, aim.instance, search.known.tested.items())?;
    push_lines(alloc, aim, search, lines)
}

/// Adds lines that the programs of boxes have from now on in place of what is there.
fn push_aside(
    alloc: Global,
    aim: &Aim,
    search: &mut Search,
    lines: List<Line>,
) -> Result<(), NoMemory>
    requires search { IsSearch (aimed aim.now) search.old }
    requires room { most_entries search.old < 2 ^ 31 }
    requires divides { search.old.known.divides ≡ true }
    ensures search { OnOk result (IsSearch (aimed aim.now) search.new) }
    ensures learned { OnOk result (HasLearned search.old search.new) }
    ensures few { OnOk result (length search.new.known.entries ≤ most_entries search.old) }
{
    search.known.set_aside();
    push_lines(alloc, aim, search, lines)
}

/// Adds lines of small numbers, which the programs of boxes have in place of the cuts. If table lines are made, what they are made from is
/// added before.
fn make_coarse(alloc: Global, aim: &Aim, search: &mut Search) -> Result<(), NoMemory>
    requires search { IsSearch (aimed aim.now) search.old }
    requires room { most_entries search.old < 2 ^ 31 }
    requires divides { search.old.known.divides ≡ true }
    ensures search { OnOk result (IsSearch (aimed aim.now) search.new) }
    ensures learned { OnOk result (HasLearned search.old search.new) }
    ensures few { OnOk result (length search.new.known.entries ≤ most_entries search.old) }
{
    let links = aim.instance.net.links().items();
    let lines = coarse_lines(alloc, links, search.known.tested.items())?;
    if has_kinds(aim) {
        push_narrow(alloc, aim, search)?;
        return push_aside(alloc, aim, search, lines);
    }
    push_aside(alloc, aim, search, lines)
}

/// Adds at most `most` divided lines that the point of a box's program violates.
fn push_divided(
    alloc: Global,
    aim: &Aim,
    search: &mut Search,
    boxed: &Boxed,
    solution: &Solution,
    most: usize,
) -> Result<(), NoMemory>
    requires search { IsSearch (aimed aim.now) search.old }
    requires room { most_entries search.old < 2 ^ 31 }
    requires divides { search.old.known.divides ≡ true }
    ensures search { OnOk result (IsSearch (aimed aim.now) search.new) }
    ensures learned { OnOk result (HasLearned search.old search.new) }
    ensures few { OnOk result (length search.new.known.entries ≤ most_entries search.old) }
{
    let links = aim.instance.net.links().items();
    let tested = search.known.tested.items();
    let lines = lines_at(alloc, links, tested, boxed, solution, most)?;
    push_lines(alloc, aim, search, lines)
}

/// The entries that the programs of boxes don't have.
fn before(tested: &[Tested], first: usize) -> &[Tested] {
    &tested[..first.min(tested.len())]
}

/// Adds at most `most` table lines that a point violates.
fn push_tables(
    alloc: Global,
    aim: &Aim,
    search: &mut Search,
    solution: &Solution,
    most: usize,
) -> Result<(), NoMemory>
    requires search { IsSearch (aimed aim.now) search.old }
    requires room { most_entries search.old < 2 ^ 31 }
    requires divides { search.old.known.divides ≡ true }
    ensures search { OnOk result (IsSearch (aimed aim.now) search.new) }
    ensures learned { OnOk result (HasLearned search.old search.new) }
    ensures few { OnOk result (length search.new.known.entries ≤ most_entries search.old) }
{
    let point = parts_of(alloc, solution)?;
    let task = TableTask {
        instance: aim.instance,
        tested: before(search.known.tested.items(), search.known.first),
        point: point.items(),
        den: solution.den,
        most_weight: MOST_WEIGHT,
    };
    let lines = table_lines(alloc, &task, most)?;
    push_lines(alloc, aim, search, lines)
}

/// Adds lines that the point of a box's program violates. With `tables` these are table lines, and divided lines only if it violates no
/// table line; otherwise they are divided lines.
fn push_missed(
    alloc: Global,
    aim: &Aim,
    search: &mut Search,
    boxed: &Boxed,
    solution: &Solution,
    most: usize,
    tables: bool,
) -> Result<(), NoMemory>
    requires search { IsSearch (aimed aim.now) search.old }
    requires room { most_entries search.old < 2 ^ 31 }
    requires divides { search.old.known.divides ≡ true }
    ensures search { OnOk result (IsSearch (aimed aim.now) search.new) }
    ensures learned { OnOk result (HasLearned search.old search.new) }
    ensures few { OnOk result (length search.new.known.entries ≤ most_entries search.old) }
{
    if !tables {
        return push_divided(alloc, aim, search, boxed, solution, most);
    }
    let entries = search.known.entries.len();
    push_tables(alloc, aim, search, solution, most)?;
    if search.known.entries.len() > entries {
        return Ok(());
    }
    push_divided(alloc, aim, search, boxed, solution, most)
}

/// What came of a round of lines.
#[derive(Drop)]
enum Made {
    /// The optimum of the program with the new lines.
    Solved(Solution),
    /// With the new lines the program is too wide, and they are taken off again.
    Wide,
    /// No line was added.
    Nothing,
}

/// Makes lines once that the point of a box's program violates: table lines or divided ones with `tables`, and otherwise divided ones.
fn make_round(
    alloc: Global,
    aim: &Aim,
    search: &mut Search,
    boxed: &Boxed,
    solution: &Solution,
    most: usize,
    tables: bool,
) -> Result<Made, NoMemory>
    requires search { IsSearch (aimed aim.now) search.old }
    requires room { most_entries search.old < 2 ^ 31 }
    requires divides { search.old.known.divides ≡ true }
    ensures search { OnOk result (IsSearch (aimed aim.now) search.new) }
    ensures learned { OnOk result (HasLearned search.old search.new) }
    ensures few { OnOk result (length search.new.known.entries ≤ most_entries search.old) }
{
    let mark = search.known.mark();
    push_missed(alloc, aim, search, boxed, solution, most, tables)?;
    if search.known.entries.len() == mark.entries {
        return Ok(Made::Nothing);
    }
    match search.known.solved(alloc, aim, boxed)? {
        Some(next) => Ok(Made::Solved(next)),
        None => {
            search.known.back_to(alloc, mark);
            Ok(Made::Wide)
        }
    }
}

/// Makes lines in rounds, until a round adds none or 20 are done, and gives the optimum of the last program.
fn make_in_rounds(
    alloc: Global,
    aim: &Aim,
    search: &mut Search,
    boxed: &Boxed,
    solution: Solution,
) -> Result<Solution, NoMemory>
    requires search { IsSearch (aimed aim.now) search.old }
    requires room { most_entries search.old < 2 ^ 31 }
    requires divides { search.old.known.divides ≡ true }
    ensures search { OnOk result (IsSearch (aimed aim.now) search.new) }
    ensures learned { OnOk result (HasLearned search.old search.new) }
    ensures few { OnOk result (length search.new.known.entries ≤ most_entries search.old) }
{
    let tables = has_kinds(aim);
    let mut solution = solution;
    let mut most = MOST_FIRST;
    for _ in 0..ROUNDS {
        match make_round(alloc, aim, search, boxed, &solution, most, tables)? {
            Made::Solved(next) => solution = next,
            Made::Wide => most /= FEWER,
            Made::Nothing => return Ok(solution),
        }
    }
    Ok(solution)
}

/// Makes lines in rounds, and puts the certificate of the last program into `root`.
fn make_certified(
    alloc: Global,
    aim: &Aim,
    search: &mut Search,
    boxed: &Boxed,
    root: &mut BoxCert,
) -> Result<(), NoMemory>
    requires search { IsSearch (aimed aim.now) search.old }
    requires room { most_entries search.old < 2 ^ 31 }
    requires divides { search.old.known.divides ≡ true }
    ensures search { OnOk result (IsSearch (aimed aim.now) search.new) }
    ensures learned { OnOk result (HasLearned search.old search.new) }
    ensures few { OnOk result (length search.new.known.entries ≤ most_entries search.old) }
{
    let Some(first) = search.known.solved(alloc, aim, boxed)? else {
        return Ok(());
    };
    let last = make_in_rounds(alloc, aim, search, boxed, first)?;
    *root = last.cert;
    Ok(())
}

/// Makes lines at the box of all counts, if the search makes lines: coarse ones if there are none yet, and then others in up to 20 rounds,
/// up to 40 in each. The certificate of the last program that wasn't too wide replaces `root`, which stays if there was none. That is meant
/// and not promised: the value of a box is worked out anew from the certificate that it has.
///
/// If a link has more than two kinds of modules, up to 1,024 cuts of node sets come first, and lines from which table lines are made. A
/// round then makes table lines of weights up to 20, or divided lines if the program's point violates no table line.
///
/// Each round takes the time of a program's optimum, and memory for the lines that it keeps. It fails only where memory runs out.
pub fn make_first_lines(
    alloc: Global,
    aim: &Aim,
    search: &mut Search,
    boxed: &Boxed,
    root: &mut BoxCert,
) -> Result<(), NoMemory>
    requires search { IsSearch (aimed aim.now) search.old }
    requires room { most_entries search.old < 2 ^ 31 }
    ensures search { OnOk result (IsSearch (aimed aim.now) search.new) }
    ensures learned { OnOk result (HasLearned search.old search.new) }
    ensures few { OnOk result (length search.new.known.entries ≤ most_entries search.old) }
{
    if !search.known.divides {
        return Ok(());
    }
    if search.known.first > 0 {
        return make_certified(alloc, aim, search, boxed, root);
    }
    make_coarse(alloc, aim, search)?;
    make_certified(alloc, aim, search, boxed, root)
}

/// Makes lines once at another box, if the search makes lines.
pub(crate) fn make_box_lines(
    alloc: Global,
    aim: &Aim,
    search: &mut Search,
    boxed: &Boxed,
) -> Result<(), NoMemory>
    requires search { IsSearch (aimed aim.now) search.old }
    requires room { most_entries search.old < 2 ^ 31 }
    ensures search { OnOk result (IsSearch (aimed aim.now) search.new) }
    ensures learned { OnOk result (HasLearned search.old search.new) }
    ensures few { OnOk result (length search.new.known.entries ≤ most_entries search.old) }
{
    if !search.known.divides {
        return Ok(());
    }
    let Some(solution) = search.known.solved(alloc, aim, boxed)? else {
        return Ok(());
    };
    make_round(alloc, aim, search, boxed, &solution, MOST_IN_BOX, false)?;
    Ok(())
}
