use crate::runs::{Faults, Row, comes_to};
use people_commands::Status;

const USAGE: &str = "these words are no command; zorgwint --help tells which are
usage: zorgwint plan NET [--model F] [--failures F] [--survive links] [--splits N] [--report] [--quiet]
       | view NET REPORT [--model F] [--failures F] [--survive links] [--csv WHAT | --state NAME] [--svg]
       | failures NET | help [COMMAND] | --help | --version
";

const NO_STATE: &str = "no state has the name `AC`
  a state is none, where nothing fails, or one of the failures by its name
";

const NEAR_STATE: &str = "no state has the name `nome`
  a state is none, where nothing fails, or one of the failures by its name
  did you mean `none`?
";

const NOTHING: &str = "nothing: there is no such file\nno file nothing\n";

const UNUSED: &str = "list: the model asks for no survivability, so this list isn't used
  leave it out, or give the model SURVIVABILITY_MODEL = UNRESTRICTED_FLOW_RECONFIGURATION
refused failures unused at 0
";

const NO_MODEL: &str = "triangle:1:1: this is no model
    ?SNDlib native format; type: network; version: 1.0
    ^
  here stands `?SNDlib`
  the first line of a model is: ?SNDlib native format; type: model; version: 1.0
  the file seems to be a network
refused model header at 0
";

const NO_LIST: &str = "triangle:1:1: this is no failure list
    ?SNDlib native format; type: network; version: 1.0
    ^
  here stands `?SNDlib`
  the first line of a failure list is: ?planner failures; version: 1
  the file seems to be a network
refused failures header at 0
";

const TRIANGLE_LIST: &str = "?planner failures; version: 1
FAILURES ( AB ( AB )
BC ( BC )
AC ( AC )
)
";

const BRIDGE_LIST: &str = "?planner failures; version: 1
FAILURES ( AB ( AB )
BC ( BC )
AC ( AC )
)
# CD is left out: without it demand D2 can't be carried
";

/// The first half of the triangle's failure list.
const HALF: &str = "?planner failures; version: 1\nFAILUR";

/// The plan of the triangle. Each link needs two modules: AB and BC if AC fails, and AC if AB does. Half of the cut of two links that asks
/// for 24.00 where AC fails, and half of the one that asks for 12.00 where AB does, are worth 18.00; whole modules cost at least 20.00.
const TRIANGLE_PLAN: &str =
    "triangle   3 nodes, 3 links, 1 demand of 12.000; 3 failures, all survived

  cost        30.000   cheapest (branch tree of 1 box)
  at least    20.000   by one certificate of cuts; gap 33.3 %
  fractional  18.000   no certificate of cuts gives more

  Link   Ends     Modules       Capacity    Normal     Worst   Used   In state       Cost
  AB     A - B    2 x 10.000      20.000     0.000    12.000   60 %   AC           10.000
  BC     B - C    2 x 10.000      20.000     0.000    12.000   60 %   AC           10.000
  AC     A - C    2 x 10.000      20.000    12.000    12.000   60 %   none         10.000
  total                           60.000    12.000                                 30.000

  Failure   Links out   Rerouted   Fullest link    Part of the bound
  none      -                  -   AC    60 %          -
  AB        AB             0.000   AC    60 %       33.3 %   ######
  BC        BC             0.000   AC    60 %          -
  AC        AC            12.000   AB    60 %       66.7 %   #############

  accepted: the modules carry every demand in 4 of 4 states, and no plan costs less than 30.000
";

/// The first half of that plan's bytes.
const HALF_PLAN: &str = "triangle   3 nodes, 3 links, 1 demand of 12.000; 3 failures, all survived

  cost        30.000   cheapest (branch tree of 1 box)
  at least    20.000   by one certificate of cuts; gap 33.3 %
  fractional  18.000   no certificate of cuts gives more

  Link   Ends     Modules       Capacity    Normal     Worst   Used   In state       Cost
  AB     A - B    2 x 10.000      20.000     0.000    12.000   60 %   AC           10.000
  BC     B - C    2 x 10.000      20.000     0.000    12.000   60 %   AC           10.000
  AC     A - C    2 x 10.000      20.000  ";

/// What is said of the network with a bridge, whose link separates a demand when it fails.
const BRIDGE_APART: &str = "bridge: there is no plan, since some demands can't be carried
  where CD fails, no path joins the ends of demand D2
not survivable: state 3 CD demand D2
";

/// What is said of a demand whose ends no path joins.
const APART: &str = "apart: there is no plan, since some demands can't be carried
  without any failure no path joins the ends of demand D2
not survivable: state 0 none demand D2
";

/// The help on `failures`.
const FAILURES_HELP: &str = "zorgwint failures NET
    a failure list of each single link that can fail without separating a demand; the others stand in comments

  NET   the file of a network in SNDlib's native format; - is standard input

It takes no options. After -- no word is one, so that NET may begin with a minus.
";

/// The help on `help`.
const HELP_HELP: &str = "zorgwint help [COMMAND]
    what all commands do and take, or how COMMAND alone is used

  COMMAND   plan, view, failures or help

zorgwint --help is help without COMMAND, and zorgwint --version tells which version it is.
";

/// No fetch and no put fails.
const SOUND: Faults = (9, 9, 100000);

const ROWS: [Row; 16] = [
    ("failures triangle", SOUND, Status::Done, TRIANGLE_LIST, ""),
    ("failures bridge", SOUND, Status::Done, BRIDGE_LIST, ""),
    ("failures -", SOUND, Status::Done, TRIANGLE_LIST, ""),
    ("failures -- -x", SOUND, Status::Done, TRIANGLE_LIST, ""),
    ("--version", SOUND, Status::Done, "zorgwint 1\n", ""),
    ("failures -x", SOUND, Status::BadWords, "", USAGE),
    ("failures", SOUND, Status::BadWords, "", USAGE),
    (
        "failures triangle bridge",
        SOUND,
        Status::BadWords,
        "",
        USAGE,
    ),
    ("plan", SOUND, Status::BadWords, "", USAGE),
    ("help me", SOUND, Status::BadWords, "", USAGE),
    ("failures nothing", SOUND, Status::NoFile, "", NOTHING),
    (
        "failures apart",
        SOUND,
        Status::NotSurvivable,
        "",
        "no path joins the ends of demand D2, even where nothing fails\nnot survivable: state 0 none demand D2\n",
    ),
    (
        "failures broken",
        SOUND,
        Status::BadNetwork,
        "",
        "broken:3:29: this link has capacity in place and no module
    LINKS ( L ( A B ) 5 0 0 0 ( ) )
                                ^
  here stands `)`
  a link is planned only with a module; give it one, or leave the link out
refused network fixed-link at 93
",
    ),
    (
        "failures triangle",
        (0, 9, 100000),
        Status::ReadFault,
        "",
        "triangle: reading failed; the disk may be damaged\n",
    ),
    (
        "failures triangle",
        (9, 0, 100000),
        Status::WriteFault,
        HALF,
        "writing failed\n",
    ),
    (
        "failures triangle",
        (9, 9, 20),
        Status::WriteFault,
        "",
        "writing failed: the disk is full\n",
    ),
];

/// Words with options, most of them for a report that isn't there, so that only the files before it are read.
const OPTIONS: [Row; 10] = [
    ("view triangle nothing", SOUND, Status::NoFile, "", NOTHING),
    (
        "view --survive links triangle nothing",
        SOUND,
        Status::NoFile,
        "",
        NOTHING,
    ),
    (
        "--survive links view triangle nothing",
        SOUND,
        Status::NoFile,
        "",
        NOTHING,
    ),
    (
        "view triangle nothing --model plain",
        SOUND,
        Status::NoFile,
        "",
        NOTHING,
    ),
    (
        "view triangle --failures list nothing",
        SOUND,
        Status::NoFile,
        "",
        NOTHING,
    ),
    (
        "view triangle nothing --survive links --model plain",
        SOUND,
        Status::NoFile,
        "",
        NOTHING,
    ),
    (
        "--model plain view -- -x nothing",
        SOUND,
        Status::NoFile,
        "",
        NOTHING,
    ),
    ("view - nothing", SOUND, Status::NoFile, "", NOTHING),
    ("view nothing -", SOUND, Status::NoFile, "", NOTHING),
    (
        "view triangle nothing --model nothing",
        SOUND,
        Status::NoFile,
        "",
        NOTHING,
    ),
];

/// Words with options that set how much is told, and with files that aren't of the kind that an option wants. The report isn't there, so
/// that only the files before it are read.
const TELLING_OPTIONS: [Row; 10] = [
    (
        "view triangle nothing --model plain --failures list",
        SOUND,
        Status::BadFailures,
        "",
        UNUSED,
    ),
    (
        "view triangle nothing --model triangle",
        SOUND,
        Status::BadModel,
        "",
        NO_MODEL,
    ),
    (
        "view triangle nothing --failures triangle",
        SOUND,
        Status::BadFailures,
        "",
        NO_LIST,
    ),
    (
        "view triangle nothing --csv links",
        SOUND,
        Status::NoFile,
        "",
        NOTHING,
    ),
    (
        "view triangle nothing --csv nodes",
        SOUND,
        Status::BadWords,
        "",
        USAGE,
    ),
    (
        "view triangle nothing --state AC --survive links",
        SOUND,
        Status::NoFile,
        "",
        NOTHING,
    ),
    (
        "view triangle nothing --state none",
        SOUND,
        Status::NoFile,
        "",
        NOTHING,
    ),
    (
        "view triangle nothing --state AC",
        SOUND,
        Status::BadWords,
        "",
        NO_STATE,
    ),
    (
        "view triangle nothing --state nome --survive links",
        SOUND,
        Status::BadWords,
        "",
        NEAR_STATE,
    ),
    (
        "view triangle nothing --state AC --survive links --csv links",
        SOUND,
        Status::BadWords,
        "",
        USAGE,
    ),
];

/// Words with options that aren't a command.
const REFUSED_OPTIONS: [Row; 10] = [
    ("view triangle", SOUND, Status::BadWords, "", USAGE),
    (
        "view triangle nothing triangle",
        SOUND,
        Status::BadWords,
        "",
        USAGE,
    ),
    ("view - -", SOUND, Status::BadWords, "", USAGE),
    (
        "view triangle nothing --model",
        SOUND,
        Status::BadWords,
        "",
        USAGE,
    ),
    (
        "view triangle nothing --model plain --model plain",
        SOUND,
        Status::BadWords,
        "",
        USAGE,
    ),
    (
        "view triangle nothing --survive nodes",
        SOUND,
        Status::BadWords,
        "",
        USAGE,
    ),
    (
        "view triangle nothing --survive links --failures list",
        SOUND,
        Status::BadWords,
        "",
        USAGE,
    ),
    (
        "view triangle nothing --colour red",
        SOUND,
        Status::BadWords,
        "",
        USAGE,
    ),
    (
        "failures triangle --model plain",
        SOUND,
        Status::BadWords,
        "",
        USAGE,
    ),
    (
        "view triangle nothing --report",
        SOUND,
        Status::BadWords,
        "",
        USAGE,
    ),
];

/// Words of a plan. Without a failure list one module isn't enough for 12.00, so two are bought on the link from A to C. With a failure
/// list of each single link, two are bought on each link.
const PLANS: [Row; 13] = [
    (
        "plan triangle --survive links --quiet",
        SOUND,
        Status::Done,
        TRIANGLE_PLAN,
        "",
    ),
    (
        "--quiet --splits 0 plan --survive links triangle",
        SOUND,
        Status::Done,
        TRIANGLE_PLAN,
        "",
    ),
    (
        "plan triangle --survive links --splits 9999",
        SOUND,
        Status::Done,
        TRIANGLE_PLAN,
        "",
    ),
    (
        "plan bridge --survive links",
        SOUND,
        Status::NotSurvivable,
        "",
        BRIDGE_APART,
    ),
    ("plan apart", SOUND, Status::NotSurvivable, "", APART),
    ("plan nothing", SOUND, Status::NoFile, "", NOTHING),
    (
        "plan triangle --model triangle",
        SOUND,
        Status::BadModel,
        "",
        NO_MODEL,
    ),
    (
        "plan triangle --survive links",
        (9, 0, 100000),
        Status::WriteFault,
        HALF_PLAN,
        "writing failed\n",
    ),
    ("plan triangle triangle", SOUND, Status::BadWords, "", USAGE),
    (
        "plan triangle --splits 10000",
        SOUND,
        Status::BadWords,
        "",
        USAGE,
    ),
    (
        "plan triangle --splits +1",
        SOUND,
        Status::BadWords,
        "",
        USAGE,
    ),
    (
        "plan triangle --report --report",
        SOUND,
        Status::BadWords,
        "",
        USAGE,
    ),
    ("plan triangle --splits", SOUND, Status::BadWords, "", USAGE),
];

/// Words that ask for help.
const HELPS: [Row; 9] = [
    ("help failures", SOUND, Status::Done, FAILURES_HELP, ""),
    ("help help", SOUND, Status::Done, HELP_HELP, ""),
    ("help -- failures", SOUND, Status::Done, FAILURES_HELP, ""),
    (
        "help failures",
        (9, 9, 20),
        Status::WriteFault,
        "",
        "writing failed: the disk is full\n",
    ),
    ("help version", SOUND, Status::BadWords, "", USAGE),
    ("help plan view", SOUND, Status::BadWords, "", USAGE),
    ("help plan --quiet", SOUND, Status::BadWords, "", USAGE),
    ("help --version", SOUND, Status::BadWords, "", USAGE),
    ("help --", SOUND, Status::BadWords, "", USAGE),
];

#[test]
fn runs_end_with_their_status_text_and_message(rt: HostRuntime) {
    for row in &ROWS {
        assert!(rt; comes_to(&rt, rt.alloc(), row) == Some(true), "{}", row.0);
    }
}

#[test]
fn options_may_come_in_any_place(rt: HostRuntime) {
    for row in &OPTIONS {
        assert!(rt; comes_to(&rt, rt.alloc(), row) == Some(true), "{}", row.0);
    }
}

#[test]
fn options_say_what_is_told(rt: HostRuntime) {
    for row in &TELLING_OPTIONS {
        assert!(rt; comes_to(&rt, rt.alloc(), row) == Some(true), "{}", row.0);
    }
}

#[test]
fn other_options_are_refused(rt: HostRuntime) {
    for row in &REFUSED_OPTIONS {
        assert!(rt; comes_to(&rt, rt.alloc(), row) == Some(true), "{}", row.0);
    }
}

#[test]
fn plans_are_printed(rt: HostRuntime) {
    for row in &PLANS {
        assert!(rt; comes_to(&rt, rt.alloc(), row) == Some(true), "{}", row.0);
    }
}

#[test]
fn help_is_of_one_command(rt: HostRuntime) {
    for row in &HELPS {
        assert!(rt; comes_to(&rt, rt.alloc(), row) == Some(true), "{}", row.0);
    }
}
