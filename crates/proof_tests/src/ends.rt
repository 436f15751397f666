//! Where a report ends. Its tree comes below that place.
use tree_reader::report_end;

/// A text, and the place after its last token, counted by hand.
const ENDS: [(&[u8], u64); 8] = [
    (b"OUTCOMES ( )\n# box-cut 0 0 12000 1 0 1\n", 12),
    (b"OUTCOMES ( ) # cheapest ( )\n# (", 12),
    (b"OUTCOMES ( )", 12),
    (b"POOL # ( )\r\n ( 1 )\t\r\n", 18),
    (b"a(b)c # )", 5),
    (b"# ( )\nword", 10),
    (b"# ( )\n \n", 0),
    (b"", 0),
];

/// The first text whose report doesn't end at its place.
fn first_wrong() -> Option<usize> {
    for i in 0..ENDS.len() {
        let (text, end) = ENDS[i];
        if report_end(text) != end {
            return Some(i);
        }
    }
    None
}

#[test]
fn reports_end_after_their_last_token(rt: HostRuntime) {
    let wrong = first_wrong();
    assert!(rt; wrong.is_none(), "row {}", wrong.unwrap_or(0));
}
