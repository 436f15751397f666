use crate::runs::{comes_to, run_words};
use planner_commands::Status;
use std::sync::Wait;
use std::thread::Threads;

/// The summary of the sample of 8 nodes with the seed 7.
const OF_8_NODES: &str = "sample 7 8
nodes 8 links 12 demands 28 states 13
cost 978.000
bound 402.000
raw 3869385800 9641
quality tight
";

/// The summary of the sample of 12 nodes with the seed 7.
const OF_12_NODES: &str = "sample 7 12
nodes 12 links 18 demands 66 states 19
cost 2166.000
bound 1289.000
raw 12420570700 9641
quality tight
";

/// Words of a sample, and its summary.
const SAMPLES: [(&str, &str); 3] = [
    ("sample 7 8", OF_8_NODES),
    ("sample 007 08", OF_8_NODES),
    ("sample 7 12", OF_12_NODES),
];

/// Words of a sample, and the end of its summary: the least cost of fractional modules, rounded up to what costs can be, and as it is.
const TIGHT_SAMPLES: [(&str, &str); 10] = [
    (
        "sample 1 6",
        "\nbound 117.000\nraw 1127279000 9641\nquality tight\n",
    ),
    (
        "sample 2 6",
        "\nbound 137.000\nraw 1319420700 9641\nquality tight\n",
    ),
    (
        "sample 3 6",
        "\nbound 116.000\nraw 1115589820 9641\nquality tight\n",
    ),
    (
        "sample 4 6",
        "\nbound 128.000\nraw 1231720125 9641\nquality tight\n",
    ),
    (
        "sample 5 6",
        "\nbound 168.000\nraw 1617942800 9641\nquality tight\n",
    ),
    (
        "sample 6 6",
        "\nbound 162.000\nraw 50156500 311\nquality tight\n",
    ),
    (
        "sample 4 7",
        "\nbound 177.000\nraw 54844375 311\nquality tight\n",
    ),
    (
        "sample 3 8",
        "\nbound 314.000\nraw 3022875200 9641\nquality tight\n",
    ),
    (
        "sample 6 9",
        "\nbound 444.000\nraw 137984500 311\nquality tight\n",
    ),
    (
        "sample 2 10",
        "\nbound 514.000\nraw 4952176200 9641\nquality tight\n",
    ),
];

/// Whether the summary of a sample ends with this.
fn ends_with<R: AllocGlobal + Threads + Wait + Sync>(rt: &R, words: &str, end: &str) -> bool {
    match run_words(rt, words, &[], &[], &[]) {
        Some(run) => run.status == Status::Done && run.text().ends_with(end),
        None => false,
    }
}

#[test]
fn a_sample_is_planned(rt: HostRuntime) {
    for (words, summary) in &SAMPLES {
        assert!(rt;
            comes_to(&rt, words, &[], 0, (Status::Done, summary)),
            "{words}"
        );
    }
    for (words, end) in &TIGHT_SAMPLES {
        assert!(rt; ends_with(&rt, words, end), "{words}");
    }
}
