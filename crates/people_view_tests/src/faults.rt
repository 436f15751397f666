use fault_texts::{Sentence, put_fault};
use net_core::{List, NoMemory};
use std::alloc::Global;

/// A file's name and bytes, the place of a fault, what is said of it, and the whole message.
#[derive(Clone, Copy)]
struct FaultRow {
    name: &'static [u8],
    bytes: &'static [u8],
    at: usize,
    sentence: Sentence,
    message: &'static [u8],
}

const SHORT: Sentence = Sentence {
    wrong: "wrong",
    help: "do better",
};

/// A network whose link has capacity installed and no modules.
const BROKEN: &[u8] =
    b"?SNDlib native format; type: network; version: 1.0\nNODES ( A B )\nLINKS ( L ( A B ) 5 0 0 0 ( ) )\nDEMANDS ( )\n";

/// A failure list whose lines end in carriage return and line feed.
const LIST: &[u8] = b"?planner failures; version: 1\r\nFAILURES (\r\n\ts ( XY )\r\n)\r\n";

/// Faults in the middle of a line, after a tab, after characters of two bytes and control characters, at the end of files, at a comment, at
/// control characters of one byte and of two, and at bytes that aren't UTF-8.
const FAULTS: [FaultRow; 8] = [
    FaultRow {
        name: b"data/broken.txt",
        bytes: BROKEN,
        at: 93,
        sentence: Sentence {
            wrong: "this link has capacity in place and no module",
            help: "a link is planned only with a module; give it one, or leave the link out",
        },
        message: b"data/broken.txt:3:29: this link has capacity in place and no module\n    LINKS ( L ( A B ) 5 0 0 0 ( ) )\n                                ^\n  here stands `)`\n  a link is planned only with a module; give it one, or leave the link out\n",
    },
    FaultRow {
        name: b"list",
        bytes: LIST,
        at: 48,
        sentence: SHORT,
        message: b"list:3:6: wrong\n     s ( XY )\n         ^\n  here stands `XY`\n  do better\n",
    },
    FaultRow {
        name: b"-",
        bytes: b"z\xc3\xbcrich\x1b[1m\x7f!",
        at: 12,
        sentence: SHORT,
        message: b"-:1:12: wrong\n    z\xc3\xbcrich [1m !\n               ^\n  here stands `!`\n  do better\n",
    },
    FaultRow {
        name: b"f",
        bytes: b"",
        at: 0,
        sentence: SHORT,
        message: b"f:1:1: wrong\n    \n    ^\n  the file ends here\n  do better\n",
    },
    FaultRow {
        name: b"f",
        bytes: b"a\rb\n",
        at: 4,
        sentence: SHORT,
        message: b"f:3:1: wrong\n    \n    ^\n  the file ends here\n  do better\n",
    },
    FaultRow {
        name: b"f",
        bytes: b"# c\nx",
        at: 0,
        sentence: SHORT,
        message: b"f:1:1: wrong\n    # c\n    ^\n  do better\n",
    },
    FaultRow {
        name: b"f",
        bytes: b"\x1b]0;\xc2\x9bz\x7f",
        at: 0,
        sentence: SHORT,
        message: b"f:1:1: wrong\n     ]0;\xc2\xa0z \n    ^\n  here stands `\\x1b]0;\\xc2\\x9bz\\x7f`\n  do better\n",
    },
    FaultRow {
        name: b"f",
        bytes: b"a\x9b\xffb",
        at: 0,
        sentence: SHORT,
        message: b"f:1:1: wrong\n    a\x9b\xffb\n    ^\n  here stands `a\\x9b\\xffb`\n  do better\n",
    },
];

/// Whether the message of a row is the expected one.
fn is_right(alloc: Global, row: &FaultRow) -> Result<bool, NoMemory> {
    if row.at > row.bytes.len() {
        return Ok(false);
    }
    let mut text = List::new(alloc);
    put_fault(&mut text, row.name, row.bytes, row.at, row.sentence)?;
    Ok(text.items() == row.message)
}

/// The first row whose message isn't the expected one.
fn first_wrong(alloc: Global) -> Option<usize> {
    for i in 0..FAULTS.len() {
        if is_right(alloc, &FAULTS[i]) != Ok(true) {
            return Some(i);
        }
    }
    None
}

#[test]
fn messages_point_at_the_fault(rt: HostRuntime) {
    let wrong = first_wrong(rt.alloc());
    assert!(rt; wrong.is_none(), "row {}", wrong.unwrap_or(0));
}
