use text_layout::{Place, place_of};

/// A text, the place of a byte or of the end, and the line and the column of that place.
type PlaceRow = (&'static [u8], usize, u64, u64);

/// Line ends of all kinds, a tab, a byte order mark, and characters of two bytes and more.
const PLACES: [PlaceRow; 21] = [
    (b"", 0, 1, 1),
    (b"abc", 0, 1, 1),
    (b"abc", 3, 1, 4),
    (b"abc\n", 3, 1, 4),
    (b"abc\n", 4, 2, 1),
    (b"one\r\ntwo\rthree", 3, 1, 4),
    (b"one\r\ntwo\rthree", 4, 1, 5),
    (b"one\r\ntwo\rthree", 5, 2, 1),
    (b"one\r\ntwo\rthree", 8, 2, 4),
    (b"one\r\ntwo\rthree", 9, 3, 1),
    (b"one\r\ntwo\rthree", 10, 3, 2),
    (b"a\n\nb", 1, 1, 2),
    (b"a\n\nb", 2, 2, 1),
    (b"a\n\nb", 3, 3, 1),
    (b"\r\r\n", 1, 2, 1),
    (b"\r\r\n", 2, 2, 2),
    (b"\r\r\n", 3, 3, 1),
    (b"\tx", 1, 1, 2),
    (b"z\xc3\xbcrich", 2, 1, 3),
    (b"z\xc3\xbcrich", 3, 1, 3),
    (b"\xef\xbb\xbf\xe2\x82\xac\xf0\x9f\x98\x80x", 10, 1, 4),
];

/// Whether the place of a row is the expected one.
fn is_right(row: &PlaceRow) -> bool {
    row.1 <= row.0.len()
        && place_of(row.0, row.1)
            == Place {
                line: row.2,
                column: row.3,
            }
}

/// The first row whose place isn't the expected one.
fn first_wrong() -> Option<usize> {
    for i in 0..PLACES.len() {
        if !is_right(&PLACES[i]) {
            return Some(i);
        }
    }
    None
}

#[test]
fn lines_and_columns_are_counted_as_people_do(rt: HostRuntime) {
    let wrong = first_wrong();
    assert!(rt; wrong.is_none(), "row {}", wrong.unwrap_or(0));
}
