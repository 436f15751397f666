use crate::texts::{in_places, joined, places_of};
use crate::values::{Said, says};
use net_core::{Network, States};
use plan_report::write_report;
use report_reader::read_report;
use std::alloc::Global;
use worked_networks::triangle;

/// A report with edits, a cut and both kinds of outcomes.
const WHOLE: &[u8] =
    b"?planner report; version: 1\nNOTES ( fixed )\nJOURNAL ( ( 1 cut 0 )\n( 2 caller 1 set D 2.000 accepted 1 )\n)\nPOOL ( ( 0 state 0 right 2000 ( 1 1 1 )\n)\n)\nOUTCOMES ( PLAN ( caller 1 plan 1 version 1 position 2 DEMANDS ( D ( A B )\n2.000 )\ncost 5.000 bound 5.000 raw 1000 1 MODULES ( AB ( 1 )\nBC ( 0 )\nAC ( 0 )\n)\nCERTIFICATE ( 2 ( 1 pool 0 right 2000 )\n( 0 local 0 ( 1 0 1 )\nright 2000 )\n)\nROUTES ( state 0 none 1 ( D 2000 ( AB )\n)\n)\ntight 1 ( 200 0 0 )\n( state 0 none 1 ( D 2000 ( AB )\n)\n)\n)\nUNSURVIVABLE ( caller 2 plan 1 version 1 position 2 state 0 none demand D )\n)\n";

/// A report of a network with six places.
const FINE: &[u8] =
    b"?planner report; version: 2\nNOTES ( )\nJOURNAL ( ( 1 caller 1 set D 0.000001 too-much 17592186.044416 )\n( 2 caller 2 add D ( A C )\n12.345678 accepted 1 )\n)\nPOOL ( )\nOUTCOMES ( PLAN ( caller 1 plan 1 version 1 position 2 DEMANDS ( D ( A B )\n12.345678 )\ncost 5.000000 bound 4.000001 raw 4000001 1 MODULES ( AB ( 1 )\nBC ( 0 )\nAC ( 0 )\n)\nCERTIFICATE ( 1 )\nROUTES ( state 0 none 1 ( D 12345678 ( AB )\n)\n)\nloose cuts )\n)\n";

/// The whole report of a plan without demands.
const IDLE: &[u8] = b"?planner report; version: 1
NOTES ( )
JOURNAL ( ( 1 cut 0 )
)
POOL ( ( 0 state 0 right 0 ( 1 1 1 )
)
)
OUTCOMES ( PLAN ( caller 1 plan 1 version 0 position 0 DEMANDS ( )
cost 0.000 bound 0.000 raw 0 1 MODULES ( AB ( 0 )
BC ( 0 )
AC ( 0 )
)
CERTIFICATE ( 1 )
ROUTES ( state 0 none 1 ( )
)
tight 1 ( 0 0 0 )
( state 0 none 1 ( )
)
)
)
";

/// Edits of callers with each reply, and a cut whose line of the pool isn't there.
const EDITS: &[u8] = b"?planner report; version: 1
NOTES ( fixed setup )
JOURNAL ( ( 1 caller 1 set D1 12.500 accepted 7 )
( 2 caller 8 drop D1 unknown-demand )
( 3 caller 2 add D2 ( A C )
5.000 known-demand )
( 4 caller 2 add D2 ( A C )
5.000 unknown-node )
( 5 caller 2 add D2 ( A C )
5.000 self-demand )
( 6 caller 2 add D2 ( A C )
5.000 too-many )
( 7 caller 3 set D1 0.001 too-much 17592186044.416 )
( 8 cut 3 )
)
POOL ( )
OUTCOMES ( UNSURVIVABLE ( caller 2 plan 64 version 1 position 5 state 0 none demand D1 )
)
";

/// The report of a plan, up to how good its bound is. Its certificate has a cut of the pool and another.
const PLAN: &[u8] = b"?planner report; version: 1
NOTES ( routing )
JOURNAL ( )
POOL ( ( 0 state 0 right 0 ( 1 1 1 )
)
( 1 state 0 right 5 ( 1 2 3 )
)
)
OUTCOMES ( PLAN ( caller 1 plan 1 version 0 position 0 DEMANDS ( A ( A C )
12.000 )
cost 0.000 bound 0.000 raw 0 1 MODULES ( AB ( 0 )
BC ( 0 )
AC ( 0 )
)
CERTIFICATE ( 1 ( 4 pool 1 right 0 )
( 4 local 0 ( 1 1 1 )
right 0 )
)
ROUTES ( state 0 none 1 ( A 5 ( AC )
)
)
";

/// A program that routes, up to what of it is too wide.
const ROUTE: &[u8] =
    b"loose wide route 0 3 ( 1 2 85070591730234615865843651857942052863 )\n( link AB link BC demand A flow A ( AC )\n)\n";

/// A program that finds a certificate, up to what of it is too wide.
const MASTER: &[u8] = b"loose wide master ( link AB link BC cut 0 ( 1 1 1 )\n)\n";

/// A report of the triangle as it is written, in three parts, and what it says.
type Row = (&'static [u8], &'static [u8], &'static [u8], Said);

/// Reports with each kind of outcome, of edits and of replies, and with each kind of evidence and of its columns.
const REPORTS: [Row; 14] = [
    (WHOLE, b"", b"", Said::Other),
    (FINE, b"", b"", Said::Fine),
    (IDLE, b"", b"", Said::Idle),
    (EDITS, b"", b"", Said::Edits),
    (PLAN, b"loose cuts )\n)\n", b"", Said::NoRoom),
    (PLAN, ROUTE, b"number link AB )\n)\n", Said::LinkNumber),
    (PLAN, ROUTE, b"row 4 )\n)\n", Said::RouteRow),
    (PLAN, ROUTE, b"entry 2 demand A )\n)\n", Said::DemandEntry),
    (
        PLAN,
        ROUTE,
        b"number flow A ( AB BC )\n)\n)\n",
        Said::FlowNumber,
    ),
    (PLAN, ROUTE, b"sum 1 )\n)\n", Said::RouteSum),
    (PLAN, ROUTE, b"common )\n)\n", Said::RouteCommon),
    (PLAN, ROUTE, b"length AC )\n)\n", Said::Length),
    (
        PLAN,
        MASTER,
        b"entry 3 cut 0 ( 1 0 2 )\n)\n)\n",
        Said::CutEntry,
    ),
    (PLAN, MASTER, b"value )\n)\n", Said::Value),
];

/// Whether the text of a report says this, and is the one that is written of it.
fn is_as_written(alloc: Global, net: &Network, text: &[u8], said: Said) -> bool {
    let states = States::only_none(alloc);
    let Ok(report) = read_report(alloc, net, &states, text) else {
        return false;
    };
    match write_report(alloc, net, &states, &report) {
        Ok(written) => written.items() == text && says(&report, said),
        Err(_) => false,
    }
}

/// The triangle, with the places that a report which begins so is for.
fn triangle_for(alloc: Global, front: &[u8]) -> Option<Network> {
    let net = triangle(alloc, 0).ok()?;
    in_places(&net, places_of(front))
}

/// Whether the report of a row is as it is written.
fn is_row_as_written(alloc: Global, row: &Row) -> bool {
    let (front, rest, last, said) = *row;
    match (triangle_for(alloc, front), joined(alloc, front, rest, last)) {
        (Some(net), Some(text)) => is_as_written(alloc, &net, text.items(), said),
        _ => false,
    }
}

#[test]
fn a_report_is_written_as_it_was_read(rt: HostRuntime) {
    for row in &REPORTS {
        assert!(rt; is_row_as_written(rt.alloc(), row));
    }
}
