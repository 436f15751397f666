use crate::texts::{DEARER, EMPTY, REPORT, SHORT, TREE};
use net_core::{Bytes, List, NoMemory, Problem};
use outside_io::Status;
use people_files::Halt;
use people_views::{ViewForm, view_report};
use std::alloc::Global;
use worked_networks::{problem, triangle};

/// A report, the lines below it with one of them replaced by another, and the result: a status, and the message, or a part of the view.
type Row = (
    &'static str,
    &'static str,
    (&'static str, &'static str),
    Status,
    &'static str,
);

const VIEWED: [Row; 10] = [
    (
        REPORT,
        "",
        ("-", "-"),
        Status::Done,
        "   not shown to be cheapest\n",
    ),
    (
        REPORT,
        "# blocked AB 0 cut 1 right 1 lengths 0 0 1\n# a note\n",
        ("-", "-"),
        Status::Done,
        "   not shown to be cheapest\n",
    ),
    (
        REPORT,
        TREE,
        ("-", "-"),
        Status::Done,
        "   cheapest (branch tree of 7 boxes)\n",
    ),
    (
        REPORT,
        TREE,
        ("# cheapest", "# above 30.000"),
        Status::Done,
        "   no plan costs less than 30.000 (branch tree of 7 boxes)\n",
    ),
    (
        EMPTY,
        TREE,
        ("-", "-"),
        Status::Done,
        "  the report has no plan\n",
    ),
    (
        SHORT,
        "",
        ("-", "-"),
        Status::BadReport,
        "report:2:11: another section is expected here, or its parenthesis, or the end of the report
    NOTES ( ) POOL ( )
              ^
  here stands `POOL`
  the sections are NOTES, JOURNAL, POOL and OUTCOMES, in this order and each in parentheses
refused report section at 38
",
    ),
    (
        DEARER,
        TREE,
        ("-", "-"),
        Status::Rejected,
        "report: the cost isn't what the modules and setups cost
  the report isn't one that the planner prints for these files; nothing of it is shown
rejected outcome 1 cost-differs 31.000 30.000
",
    ),
    (
        REPORT,
        TREE,
        ("# empty 4", "# empty 5"),
        Status::Rejected,
        "report: the branch tree below the report doesn't show what it says
  line 2 of its nodes doesn't hold
rejected tree 1
",
    ),
    (
        REPORT,
        TREE,
        ("# closed 2 1 7\n", ""),
        Status::Rejected,
        "report: the branch tree below the report doesn't show what it says
  a node is missing after the last one
rejected tree 6
",
    ),
    (
        REPORT,
        TREE,
        ("# cheapest", "# above 20.000"),
        Status::Rejected,
        "report: the branch tree below the report doesn't show what it says
  its last line doesn't follow from its nodes
rejected tree 8
",
    ),
];

/// Trees and reports that are refused, each with its status and message.
const REFUSED: [Row; 7] = [
    (
        REPORT,
        TREE,
        ("box-cut 0", "box-cut 1"),
        Status::BadReport,
        "report:16:11: this number is out of its range, or a length or a proof line is one too many or too few here
    # box-cut 1 0 12000 1 0 1
              ^
  here stands `1`
  were the lines below the report changed by hand?
refused report limit at 582
",
    ),
    (
        REPORT,
        TREE,
        ("# empty 7", "# a note"),
        Status::BadReport,
        "report:29:3: another proof line is expected here, or another word in it
    # a note
      ^
  here stands `a`
  were the lines below the report changed by hand?
refused report token at 847
",
    ),
    (
        REPORT,
        TREE,
        ("# cheapest\n", ""),
        Status::BadReport,
        "report:31:1: a proof line ends too early, or the lines end before they say what they show\n    \n    ^\n  the file ends here\n  are they cut off? the last one is cheapest or above\nrefused report ended at 870\n",
    ),
    (
        "",
        REPORT,
        ("?planner report; version: 1", "?planner report; version: 2"),
        Status::BadReport,
        "report:1:1: this is no report of this network
    ?planner report; version: 2
    ^
  here stands `?planner`
  the first line of its reports is: ?planner report; version: 1
  the report is of another network: one with a number finer than thousandths, which this one hasn't
refused report header at 0
",
    ),
    (
        "",
        REPORT,
        ("?planner report; version: 1", "?planner script; version: 1"),
        Status::BadReport,
        "report:1:1: this is no report of this network
    ?planner script; version: 1
    ^
  here stands `?planner`
  the first line of its reports is: ?planner report; version: 1
  the file seems to be a script
refused report header at 0
",
    ),
    (
        "",
        REPORT,
        ("MODULES ( AB", "MODULES ( XY"),
        Status::BadReport,
        "report:6:13: no link, node or demand has this name, or another name is expected here
      MODULES ( XY ( 2 ) BC ( 2 ) AC ( 2 ) )
                ^
  here stands `XY`
  nodes, links and failures are called as in these files, and listed in their order
  nothing in these files has this name: the report is of another network or failure list, or was changed by hand
refused report unknown-name at 292
",
    ),
    (
        "",
        REPORT,
        ("MODULES ( AB", "MODULES ( AC"),
        Status::BadReport,
        "report:6:13: no link, node or demand has this name, or another name is expected here
      MODULES ( AC ( 2 ) BC ( 2 ) AC ( 2 ) )
                ^
  here stands `AC`
  nodes, links and failures are called as in these files, and listed in their order
refused report unknown-name at 292
",
    ),
];

/// The triangle of links AB, BC and AC with modules of 10.00 for 5.00, a demand of 12.00 from A to C, and the failure of each link alone.
pub(crate) fn worked(alloc: Global) -> Option<Problem> {
    problem(alloc, triangle(alloc, 0).ok()?, &[(0, 2, 12000)]).ok()
}

/// Appends lines, where a part of them is replaced once.
fn put_lines(text: &mut Bytes, lines: &str, part: (&str, &str)) -> Result<(), NoMemory> {
    match lines.split_once(part.0) {
        Some((front, rest)) if part.0 != "-" => {
            text.append(front.as_bytes())?;
            text.append(part.1.as_bytes())?;
            text.append(rest.as_bytes())
        }
        _ => text.append(lines.as_bytes()),
    }
}

/// A report with lines below it, where a part of these is replaced once.
fn text_of(alloc: Global, row: &Row) -> Result<Bytes, NoMemory> {
    let mut text = List::from_slice(alloc, row.0.as_bytes())?;
    put_lines(&mut text, row.1, row.2)?;
    Ok(text)
}

/// Whether the first text has the second as a part.
fn has_part(text: &[u8], part: &[u8]) -> bool {
    for at in 0..text.len() {
        if text[at..].starts_with(part) {
            return true;
        }
    }
    false
}

/// Whether the result of a view is what a row says; `None` if memory runs out.
fn is_told(found: &Result<Bytes, Halt>, row: &Row) -> Option<bool> {
    match found {
        Ok(view) => Some(row.3 == Status::Done && has_part(view.items(), row.4.as_bytes())),
        Err(Halt::Told(told)) => {
            Some(told.status == row.3 && told.message.items() == row.4.as_bytes())
        }
        Err(Halt::NoMemory) => None,
    }
}

/// The view of a report of the triangle, or why there is none.
fn viewed(alloc: Global, p: &Problem, report: &[u8]) -> Result<Bytes, Halt> {
    let tables = ViewForm::Tables;
    view_report(alloc, "data/triangle.txt", "report", p, report, tables)
}

/// Whether the report of a row gives the row's result on the triangle that is lent; `None` if memory runs out.
fn comes_to_on(alloc: Global, p: &Problem, row: &Row) -> Option<bool> {
    let text = text_of(alloc, row).ok()?;
    let found = viewed(alloc, p, text.items());
    is_told(&found, row)
}

/// Whether the report of a row gives the row's result; `None` if memory runs out.
fn comes_to(alloc: Global, row: &Row) -> Option<bool> {
    let p = worked(alloc)?;
    comes_to_on(alloc, &p, row)
}

/// The first row whose report doesn't give the row's result.
fn first_wrong(alloc: Global, rows: &[Row]) -> Option<usize> {
    for i in 0..rows.len() {
        if comes_to(alloc, &rows[i]) != Some(true) {
            return Some(i);
        }
    }
    None
}

#[test]
fn reports_come_to_their_rows(rt: HostRuntime) {
    let wrong = first_wrong(rt.alloc(), &VIEWED);
    assert!(rt; wrong.is_none(), "row {}", wrong.unwrap_or(0));
}

#[test]
fn refused_reports_come_to_their_rows(rt: HostRuntime) {
    let wrong = first_wrong(rt.alloc(), &REFUSED);
    assert!(rt; wrong.is_none(), "row {}", wrong.unwrap_or(0));
}
