use crate::files::{Format, first_difference};
use net_core::{Copied, Edit, Places};
use session_script::{Act, Command, read_script};
use std::alloc::Global;

const HEADER: &[u8] = b"?planner script; version: 1\n";

/// A file with the header of another format.
const OTHER_HEADER: &[u8] = b"0 header|?planner failures; version: 1~
";

const FAULTS: &[u8] = b"28 token|(
28 token|plan
34 ended|caller
35 token|caller ( 1
35 caller|caller 0 plan
35 caller|caller 9 plan
35 caller|caller 01 plan
35 caller|caller one plan
35 caller|caller 100000000000000000000000000000000000001 plan
36 ended|caller 1
37 token|caller 1 move D1
37 token|caller 1 )
40 ended|caller 1 set
44 token|caller 1 set D1 )
44 number-not|caller 1 set D1 1,5
44 number-fine|caller 1 set D1 1.0001
44 number-large|caller 1 set D1 1099511627.776
52 number-large|caller 1 add D4 ( A C ) 1099511627.776
44 token|caller 1 add D4 A C 1
48 token|caller 1 add D4 ( A ) 1
50 token|caller 1 add D4 ( A C 1
51 ended|caller 1 add D4 ( A C )
42 token|caller 2 drop (
42 token|caller 3 plan plan
51 ended|caller 3 plan~caller 3~
";

/// There are at most 1,000 commands, and at most 64 of them ask for a plan.
const COUNTS: &[u8] = b"read 0|
read 1000|[1000 caller 1 drop a~]
16028 limit-commands|[1000 caller 1 drop a~]caller 1 drop a
16028 token|[1000 caller 1 drop a~]call
read 65|[64 caller 1 plan~]caller 1 drop plan
933 limit-plans|[64 caller 1 plan~]caller 1 plan
";

const LONG_NAMES: &[u8] = b"read 1|caller 1 set [255 x] 1
41 limit-name|caller 1 set [256 x] 1
read 1|caller 1 add [255 x] ( A B ) 1
41 limit-name|caller 1 add [256 x] ( A B ) 1
read 1|caller 1 add D ( [255 x] B ) 1
45 limit-name|caller 1 add D ( [256 x] B ) 1
read 1|caller 1 add D ( A [255 x] ) 1
47 limit-name|caller 1 add D ( A [256 x] ) 1
read 1|caller 1 drop [255 x]
42 limit-name|caller 1 drop [256 x]
";

const GREATEST_AMOUNTS: &[u8] = b"read 1|caller 1 set D1 1099511627.775
read 1|caller 8 add D4 ( A C ) 1099511627.775
";

/// Needs of a network with six places. As with three places they are below 2^40 units, which are millionths here.
const FINE_AMOUNTS: &[u8] = b"read 1|caller 1 set D1 0.000001
read 1|caller 1 set D1 0.0000010
44 number-fine|caller 1 set D1 0.0000001
read 1|caller 1 set D1 1099511.627775
44 number-large|caller 1 set D1 1099511.627776
read 1|caller 8 add D4 ( A C ) 1099511.627775
52 number-large|caller 8 add D4 ( A C ) 1099511.627776
44 number-not|caller 1 set D1 1.
";

#[test]
fn faults_stand_at_their_first_token(rt: HostRuntime) {
    assert_eq!(rt;
        first_difference(rt.alloc(), Format::Script, b"", OTHER_HEADER),
        None
    );
    assert_eq!(rt;
        first_difference(rt.alloc(), Format::Script, HEADER, FAULTS),
        None
    );
}

#[test]
fn needs_of_six_places_have_limits(rt: HostRuntime) {
    assert_eq!(rt;
        first_difference(rt.alloc(), Format::FineScript, HEADER, FINE_AMOUNTS),
        None
    );
}

#[test]
fn commands_plans_names_and_amounts_have_limits(rt: HostRuntime) {
    assert_eq!(rt;
        first_difference(rt.alloc(), Format::Script, HEADER, COUNTS),
        None
    );
    assert_eq!(rt;
        first_difference(rt.alloc(), Format::Script, HEADER, LONG_NAMES),
        None
    );
    assert_eq!(rt;
        first_difference(rt.alloc(), Format::Script, HEADER, GREATEST_AMOUNTS),
        None
    );
}

fn sets(command: &Command, demand: &[u8], amount: u64) -> bool {
    match &command.act {
        Act::Change(Edit::Set { name, need }) => name.bytes() == demand && *need == amount,
        _ => false,
    }
}

fn adds(command: &Command, demand: &[u8], ends: (&[u8], &[u8]), amount: u64) -> bool {
    match &command.act {
        Act::Change(
            Edit::Add {
                name,
                from,
                to,
                need,
            },
        ) => {
            name.bytes() == demand
                && from.bytes() == ends.0
                && to.bytes() == ends.1
                && *need == amount
        }
        _ => false,
    }
}

fn drops(command: &Command, demand: &[u8]) -> bool {
    match &command.act {
        Act::Change(Edit::Drop { name }) => name.bytes() == demand,
        _ => false,
    }
}

const EACH_COMMAND: &[u8] =
    b"?planner script; version: 1\ncaller 1 set D1 2.5\ncaller 2 add D4 ( A C ) 0.001 # a note\n\ncaller 8 drop plan caller 3\nplan";

fn has_each_command(commands: &[Command]) -> bool {
    match commands {
        [first, second, third, fourth] => {
            first.caller == 1
                && sets(first, b"D1", 2_500)
                && second.caller == 2
                && adds(second, b"D4", (b"A", b"C"), 1)
                && third.caller == 8
                && drops(third, b"plan")
                && !third.is_plan()
                && fourth.caller == 3
                && fourth.is_plan()
        }
        _ => false,
    }
}

/// Whether each command is read as it is written, and copied with its script.
fn is_each_command_read(alloc: Global) -> Option<bool> {
    let script = read_script(alloc, Places::Three, EACH_COMMAND).ok()?;
    Some(has_each_command(script.copy().ok()?.commands.items()))
}

/// Needs with up to six decimals.
const FINE_NEEDS: &[u8] =
    b"?planner script; version: 1\ncaller 1 set D1 12.345678\ncaller 2 add D4 ( A C ) 2.5";

/// Whether the needs are 12,345,678 and 2,500,000 units of a network with six places.
fn has_fine_needs(commands: &[Command]) -> bool {
    match commands {
        [first, second] => {
            sets(first, b"D1", 12_345_678) && adds(second, b"D4", (b"A", b"C"), 2_500_000)
        }
        _ => false,
    }
}

/// Whether needs with six decimals are read for a network with six places, and refused for one with three.
fn are_needs_of_these_places(alloc: Global) -> Option<bool> {
    let script = read_script(alloc, Places::Six, FINE_NEEDS).ok()?;
    let refused = read_script(alloc, Places::Three, FINE_NEEDS).is_err();
    Some(refused && has_fine_needs(script.commands.items()))
}

#[test]
fn each_command_is_read_and_copied(rt: HostRuntime) {
    assert!(rt; is_each_command_read(rt.alloc()) == Some(true));
}

#[test]
fn needs_have_the_places_of_the_network(rt: HostRuntime) {
    assert!(rt; are_needs_of_these_places(rt.alloc()) == Some(true));
}
