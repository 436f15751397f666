use crate::texts::{EMPTY, REPORT};
use crate::views::worked;
use net_core::{Bytes, Problem};
use people_files::Halt;
use people_views::{ViewForm, state_form, view_report};
use plan_view::Sheet;
use std::alloc::Global;

/// A report, the sheet of it that is asked for or else a state, and the text.
type Row = (&'static str, Option<Sheet>, &'static str, &'static str);

const ROWS: [Row; 7] = [
    (
        REPORT,
        Some(Sheet::Links),
        "",
        "caller,plan,link,from,to,modules,capacity,normal,worst,used_percent,state,cost
1,1,AB,A,B,2 x 10.000,20.000,0.000,12.000,60,AC,10.000
1,1,BC,B,C,2 x 10.000,20.000,0.000,12.000,60,AC,10.000
1,1,AC,A,C,2 x 10.000,20.000,12.000,12.000,60,none,10.000
",
    ),
    (
        REPORT,
        Some(Sheet::States),
        "",
        "caller,plan,state,links_out,rerouted,fullest_link,used_percent,bound_percent
1,1,none,,0.000,AC,60,0.0
1,1,AB,AB,0.000,AC,60,33.3
1,1,BC,BC,0.000,AC,60,0.0
1,1,AC,AC,12.000,AB,60,66.7
",
    ),
    (
        REPORT,
        Some(Sheet::Flows),
        "",
        "caller,plan,state,demand,from,to,amount,nodes,links
1,1,none,A,A,C,12.000,A C,AC
1,1,AB,A,A,C,12.000,A C,AC
1,1,BC,A,A,C,12.000,A C,AC
1,1,AC,A,A,C,12.000,A B C,AB BC
",
    ),
    (
        EMPTY,
        Some(Sheet::Flows),
        "",
        "caller,plan,state,demand,from,to,amount,nodes,links
",
    ),
    (
        REPORT,
        None,
        "none",
        "triangle.txt   state none   links out: -

  Caller 1, plan 1

  Link   From   To         Load   Used
  AB     A      B         0.000    0 %
  BC     B      C         0.000    0 %
  AC     A      C        12.000   60 %

  Demand     Amount   Path
  A          12.000   A - C
",
    ),
    (
        REPORT,
        None,
        "AC",
        "triangle.txt   state AC   links out: AC

  Caller 1, plan 1

  Link   From   To         Load   Used
  AB     A      B        12.000   60 %
  BC     B      C        12.000   60 %
  AC     A      C         0.000    0 %

  Demand     Amount   Path
  A          12.000   A - B - C
",
    ),
    (
        EMPTY,
        None,
        "AB",
        "triangle.txt   state AB   links out: AB
",
    ),
];

/// The view of a row's report in the row's form, or why there is none.
fn text_of(alloc: Global, p: &Problem, row: &Row) -> Result<Bytes, Halt> {
    let bytes = row.0.as_bytes();
    match row.1 {
        Some(sheet) => {
            let form = ViewForm::Values(sheet);
            view_report(alloc, "triangle.txt", "report", p, bytes, form)
        }
        None => {
            let form = state_form(alloc, p, row.2)?;
            view_report(alloc, "triangle.txt", "report", p, bytes, form)
        }
    }
}

/// Whether the report of a row has the text that the row says; `None` if memory runs out.
fn has_text(alloc: Global, row: &Row) -> Option<bool> {
    let p = worked(alloc)?;
    match text_of(alloc, &p, row) {
        Ok(text) => Some(text.items() == row.3.as_bytes()),
        Err(_) => None,
    }
}

/// The first row whose report has another text.
fn first_wrong(alloc: Global) -> usize {
    for (i, row) in ROWS.iter().enumerate() {
        if has_text(alloc, row) != Some(true) {
            return i;
        }
    }
    ROWS.len()
}

#[test]
fn forms_are_as_worked_out(rt: HostRuntime) {
    assert_eq!(rt; first_wrong(rt.alloc()), 7);
}
