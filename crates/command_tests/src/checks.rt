use crate::runs::{Ended, comes_to, run_words};
use planner_commands::Status;
use std::sync::Wait;
use std::thread::Threads;

/// Words of a plan or a session, words that check its report, and what the report contains: the cost with the bound and the raw value, and
/// how tight the plan is.
type Accepted = (&'static str, &'static str, &'static str, &'static str);

/// Plans whose reports are read again.
const ACCEPTED: [Accepted; 9] = [
    (
        "plan triangle reconfigure",
        "check triangle reconfigure default report",
        "cost 30.000 bound 20.000 raw 18000 1 ",
        ")\ntight 1 ( 6000 6000 6000 )\n",
    ),
    (
        "plan parallel default single",
        "check parallel default single report",
        "cost 15.000 bound 15.000 raw 15000 1 ",
        ")\ntight 1 ( 5000 5000 5000 )\n",
    ),
    (
        "plan four default single",
        "check four default single report",
        "cost 16.000 bound 14.000 raw 40000 3 ",
        ")\ntight 3 ( 10000 10000 10000 10000 )\n",
    ),
    (
        "plan free reconfigure",
        "check free reconfigure default report",
        "cost 0.000 bound 0.000 raw 0 1 ",
        ")\ntight ",
    ),
    (
        "plan bare-link reconfigure",
        "check bare-link reconfigure default report",
        "cost 30.000 bound 20.000 raw 18000 1 ",
        ")\ntight 1 ( 6000 6000 6000 0 )\n",
    ),
    (
        "plan large default single",
        "check large default single report",
        "cost 2.000 bound 1.000 raw 150 1 ",
        ")\ntight 1 ( 50 50 50 )\n",
    ),
    (
        "plan towns reconfigure",
        "check towns reconfigure default report",
        "cost 500.000 bound 200.000 raw 52500000 311 ",
        ")\ntight 311 ( ",
    ),
    (
        "plan fixed plain",
        "check fixed plain default report",
        "cost 0.000 bound 0.000 raw 0 1 ",
        ")\ntight 1 ( 0 0 0 )\n",
    ),
    (
        "plan idle default last",
        "check idle default last report",
        "cost 0.000 bound 0.000 raw 0 1 ",
        ")\ntight 1 ( 0 0 )\n",
    ),
];

/// More plans whose reports are read again. The bound of the measured network is that of bench/reading/matrix.py. In the last row the
/// search for a better bound ends at a number that grows too wide, and the plan costs what the fallback plan does: a module on the first
/// link, and one on the second for when the first fails.
const FURTHER_ACCEPTED: [Accepted; 9] = [
    (
        "session triangle default default set",
        "check triangle default default report",
        "cost 15.000 bound 15.000 raw 12000 1 ",
        ")\ntight 1 ( 0 0 12000 )\n",
    ),
    (
        "plan setups charge",
        "check setups charge default report",
        "cost 13.000 bound 6.000 raw 6000 1 ",
        ")\ntight 1 ( 0 0 6000 )\n",
    ),
    (
        "plan setups charge-all",
        "check setups charge-all default report",
        "cost 39.000 bound 18.000 raw 18000 1 ",
        ")\ntight 1 ( 6000 6000 6000 )\n",
    ),
    (
        "plan other-setups charge",
        "check other-setups charge default report",
        "cost 17.500 bound 7.500 raw 6000 1 ",
        ")\ntight 1 ( 0 0 6000 )\n",
    ),
    (
        "plan held charge",
        "check held charge default report",
        "cost 0.000 bound 0.000 raw 0 1 ",
        ")\ntight 1 ( 0 0 0 )\n",
    ),
    (
        "plan finer",
        "check finer default default report",
        "cost 10.000000 bound 10.000000 raw 6000050 1 ",
        ")\ntight 1 ( 0 0 6000050 )\n",
    ),
    (
        "session finer default default finer-script",
        "check finer default default report",
        "cost 15.000000 bound 15.000000 raw 12000001 1 ",
        ")\ntight 1 ( 0 0 12000001 )\n",
    ),
    (
        "plan measured",
        "check measured default default report",
        " bound 9075.000000 raw ",
        ")\ntight ",
    ),
    (
        "plan prime default single",
        "check prime default single report",
        "cost 20.016 bound ",
        ")\nloose wide master ( ",
    ),
];

/// Whether a run is done, and its report contains this.
fn says(run: &Ended, cost: &str, quality: &str) -> bool {
    let report = run.text();
    run.status == Status::Done && report.contains(cost) && report.contains(quality)
}

/// Whether the report of a row contains what the row says, and is accepted.
fn is_accepted<R: AllocGlobal + Threads + Wait + Sync>(rt: &R, row: &Accepted) -> bool {
    let (words, check, cost, quality) = *row;
    let Some(run) = run_words(rt, words, &[], &[], &[]) else {
        return false;
    };
    let files = [("report", run.out.bytes())];
    let answer = (Status::Done, "accepted 1\n");
    says(&run, cost, quality) && comes_to(rt, check, &files, 4, answer)
}

#[test]
fn a_printed_report_is_accepted(rt: HostRuntime) {
    for row in &ACCEPTED {
        assert!(rt; is_accepted(&rt, row), "{}", row.0);
    }
}

#[test]
fn further_printed_reports_are_accepted(rt: HostRuntime) {
    for row in &FURTHER_ACCEPTED {
        assert!(rt; is_accepted(&rt, row), "{}", row.0);
    }
}
