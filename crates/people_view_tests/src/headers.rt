use fault_messages::{FileFormat, header_guess};

/// Which format is expected, how a file with another header begins, and what it seems to be; `None` if that can't be told.
const HEADERS: [(FileFormat, &[u8], &str); 17] = [
    (
        FileFormat::Network,
        b"\xef\xbb\xbf?SNDlib native format; type: network; version: 1.0\n",
        "the file begins with a byte order mark: save it as UTF-8 without one",
    ),
    (
        FileFormat::Network,
        b"\xff\xfe?\x00S\x00",
        "the file seems to be UTF-16: save it as UTF-8",
    ),
    (
        FileFormat::Model,
        b"\xfe\xff\x00?\x00S",
        "the file seems to be UTF-16: save it as UTF-8",
    ),
    (
        FileFormat::Network,
        b"\x1f\x8b\x08\x00",
        "the file seems to be packed by gzip: unpack it first",
    ),
    (
        FileFormat::Report,
        b"PK\x03\x04",
        "the file seems to be packed by zip: unpack it first",
    ),
    (
        FileFormat::Failures,
        b"<?xml version=\"1.0\"?>",
        "the file seems to be XML: a network is read in SNDlib's native format",
    ),
    (
        FileFormat::Model,
        b"?SNDlib native format; type: network; version: 1.0\n",
        "the file seems to be a network",
    ),
    (
        FileFormat::Network,
        b"?SNDlib native format; type: model; version: 1.0\n",
        "the file seems to be a model",
    ),
    (
        FileFormat::Network,
        b"?planner report; version: 1\n",
        "the file seems to be a report",
    ),
    (
        FileFormat::Network,
        b"?planner failures; version: 1\n",
        "the file seems to be a failure list",
    ),
    (
        FileFormat::Network,
        b"?planner script; version: 1\n",
        "the file seems to be a script",
    ),
    (
        FileFormat::Script,
        b"?planner flows; version: 1\n",
        "the file seems to be a file of flows",
    ),
    (FileFormat::Network, b"# a comment first\n", ""),
    (FileFormat::Network, b"", ""),
    (
        FileFormat::Network,
        b"?SNDlib native format; type: network; version: 2.0\n",
        "the first line begins so, but ends otherwise: is it of another version?",
    ),
    (
        FileFormat::Report,
        b"?planner report; version: 3",
        "the first line begins so, but ends otherwise: is it of another version?",
    ),
    (FileFormat::Network, b"?SNDlib native format; type: net", ""),
];

/// The first row whose guess isn't the expected one.
fn first_wrong() -> Option<usize> {
    for i in 0..HEADERS.len() {
        if header_guess(HEADERS[i].0, HEADERS[i].1).unwrap_or("") != HEADERS[i].2 {
            return Some(i);
        }
    }
    None
}

#[test]
fn other_files_are_known_by_their_first_bytes(rt: HostRuntime) {
    let wrong = first_wrong();
    assert!(rt; wrong.is_none(), "row {}", wrong.unwrap_or(0));
}
