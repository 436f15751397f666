use crate::files::{Format, first_difference};
use model_reader::{only_none, read_failures, single_links};
use net_core::{LinkId, States};
use std::alloc::Global;
use worked_networks::triangle;

const MODEL: &[u8] = b"?SNDlib native format; type: model; version: 1.0\n";

const FAILURES: &[u8] = b"?planner failures; version: 1\n";

/// Models that are read, and models with their first faults.
const MODELS: &[u8] =
    b"read 0|DEMAND_MODEL = UNDIRECTED~LINK_MODEL = UNDIRECTED~LINK_CAPACITY_MODEL = MODULAR_CAPACITIES~FIXED_CHARGE_MODEL = NO~ROUTING_MODEL = CONTINUOUS~ADMISSIBLE_PATH_MODEL = ALL_PATHS~HOP_LIMIT_MODEL = NO~SURVIVABILITY_MODEL = NO_SURVIVABILITY~
read 1|# as failures come~SURVIVABILITY_MODEL = UNRESTRICTED_FLOW_RECONFIGURATION~HOP_LIMIT_MODEL = NO~ADMISSIBLE_PATH_MODEL = ALL_PATHS~ROUTING_MODEL = CONTINUOUS~FIXED_CHARGE_MODEL = NO~LINK_CAPACITY_MODEL = MODULAR_CAPACITIES~LINK_MODEL = UNDIRECTED~DEMAND_MODEL = UNDIRECTED
read 2|DEMAND_MODEL = UNDIRECTED~LINK_MODEL = UNDIRECTED~LINK_CAPACITY_MODEL = MODULAR_CAPACITIES~FIXED_CHARGE_MODEL = YES~ROUTING_MODEL = CONTINUOUS~ADMISSIBLE_PATH_MODEL = ALL_PATHS~HOP_LIMIT_MODEL = NO~SURVIVABILITY_MODEL = NO_SURVIVABILITY~
read 3|SURVIVABILITY_MODEL = UNRESTRICTED_FLOW_RECONFIGURATION FIXED_CHARGE_MODEL = YES HOP_LIMIT_MODEL = NO ADMISSIBLE_PATH_MODEL = ALL_PATHS ROUTING_MODEL = CONTINUOUS LINK_CAPACITY_MODEL = MODULAR_CAPACITIES LINK_MODEL = UNDIRECTED DEMAND_MODEL = UNDIRECTED
49 token|(
60 token|LINK_MODEL + UNDIRECTED
61 ended|LINK_MODEL =
60 ended|LINK_MODEL~
49 key|COST_MODEL = NO
76 double-key|ROUTING_MODEL = CONTINUOUS ROUTING_MODEL = CONTINUOUS
67 unsupported-HOP_LIMIT_MODEL|HOP_LIMIT_MODEL = INDIVIDUAL
67 unsupported-HOP_LIMIT_MODEL|HOP_LIMIT_MODEL = YES
70 unsupported-FIXED_CHARGE_MODEL|FIXED_CHARGE_MODEL = yes
70 unsupported-FIXED_CHARGE_MODEL|FIXED_CHARGE_MODEL = UNRESTRICTED_FLOW_RECONFIGURATION
71 unsupported-SURVIVABILITY_MODEL|SURVIVABILITY_MODEL = YES
73 double-key|FIXED_CHARGE_MODEL = NO FIXED_CHARGE_MODEL = YES
75 missing-LINK_MODEL|DEMAND_MODEL = UNDIRECTED~
49 missing-DEMAND_MODEL|
";

/// A file with the header of another format.
const OTHER_HEADER: &[u8] = b"0 header|?planner failures; version: 1~
";

#[test]
fn models_are_read_or_refused_at_their_first_fault(rt: HostRuntime) {
    assert_eq!(rt;
        first_difference(rt.alloc(), Format::Model, MODEL, MODELS),
        None
    );
    assert_eq!(rt;
        first_difference(rt.alloc(), Format::Model, b"", OTHER_HEADER),
        None
    );
}

/// Failure lists of the triangle, whose links are AB, BC and AC. There are at most 256 listed states, 257 with the one without failures.
const LISTS: &[u8] = b"30 section|STATES ( )
39 section|FAILURES )
43 section|FAILURES ( ) x
47 section|ALL_SINGLE_LINKS AB
41 token|FAILURES ( (
43 token|FAILURES ( s AB )
45 token|FAILURES ( s ( ) )
30 ended|
40 ended|FAILURES (
45 unknown-link|FAILURES ( s ( XY ) )
50 double-state|FAILURES ( s ( AB ) s ( BC ) )
read 257|FAILURES ([256  % ( AB )] )
2857 limit-states|FAILURES ([257  % ( AB )] )
2857 double-state|FAILURES ([256  % ( AB )] aaa ( AB ) )
read 2|FAILURES ( [255 x] ( AB ) )
41 limit-name|FAILURES ( [256 x] ( AB ) )
";

#[test]
fn failure_lists_are_read_or_refused_at_their_first_fault(rt: HostRuntime) {
    assert_eq!(rt;
        first_difference(rt.alloc(), Format::Failures, FAILURES, LISTS),
        None
    );
}

/// Whether the listed state at this place has the name and fails these links, in their order.
fn is_state(states: &States, state: usize, name: &[u8], links: &[LinkId]) -> bool {
    match states.listed().items().get(state) {
        Some(listed) => listed.name.bytes() == name && listed.links.items() == links,
        None => false,
    }
}

/// Whether these are the state without failures and two listed ones: `s`, which names a link twice, and one that is called `none`.
fn are_two_states(states: &States) -> bool {
    states.count() == 3
        && is_state(states, 0, b"s", &[LinkId(0), LinkId(1), LinkId(0)])
        && is_state(states, 1, b"none", &[LinkId(2)])
}

/// Whether these are the state without failures and one for each link of the triangle, which fails it alone and has its name.
fn are_single_links(states: &States) -> bool {
    states.count() == 4
        && is_state(states, 0, b"AB", &[LinkId(0)])
        && is_state(states, 1, b"BC", &[LinkId(1)])
        && is_state(states, 2, b"AC", &[LinkId(2)])
}

const TWO_STATES: &[u8] = b"?planner failures; version: 1\nFAILURES ( s ( AB BC AB ) none ( AC ) )";

const EACH_LINK: &[u8] = b"?planner failures; version: 1\nALL_SINGLE_LINKS";

/// The states of a failure list of the triangle.
fn states_of(alloc: Global, text: &[u8]) -> Option<States> {
    let net = triangle(alloc, 0).ok()?;
    read_failures(alloc, &net, text).ok()
}

/// Whether a failure list is read as the two states.
fn is_list_read(alloc: Global, text: &[u8]) -> Option<bool> {
    Some(are_two_states(&states_of(alloc, text)?))
}

/// Whether the word for all single links is read as a state for each link.
fn is_word_read(alloc: Global, text: &[u8]) -> Option<bool> {
    Some(are_single_links(&states_of(alloc, text)?))
}

/// Whether the states of all single links can be made without a list.
fn are_singles_made(alloc: Global) -> Option<bool> {
    let net = triangle(alloc, 0).ok()?;
    Some(are_single_links(&single_links(alloc, &net).ok()?))
}

#[test]
fn states_have_the_names_and_links_of_their_list(rt: HostRuntime) {
    assert!(rt; is_list_read(rt.alloc(), TWO_STATES) == Some(true));
    assert!(rt; is_word_read(rt.alloc(), EACH_LINK) == Some(true));
    assert!(rt; are_singles_made(rt.alloc()) == Some(true));
    assert_eq!(rt; only_none(rt.alloc()).count(), 1);
}
