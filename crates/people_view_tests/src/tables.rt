use net_core::{Bytes, List, NoMemory};
use std::alloc::Global;
use text_layout::{Column, Row, characters, put_row, widened};

/// A left column after a gap of two spaces, and a right one after three.
const COLUMNS: [Column; 2] = [
    Column {
        gap: 2,
        width: 0,
        right: false,
    },
    Column {
        gap: 3,
        width: 8,
        right: true,
    },
];

/// Cells of two columns.
const CELLS: [(&[u8], &[u8]); 3] = [
    (b"Link", b"Cost"),
    (b"AB", b"10.000"),
    (b"Z\xc3\xbcrich - Bern", b"5.000"),
];

/// Columns as wide as their widest cell in characters, and at least as wide as they were.
const TABLE: &[u8] =
    b"  Link                Cost\n  AB                10.000\n  Z\xc3\xbcrich - Bern      5.000\n";

/// A row of two cells.
fn row_of(alloc: Global, cells: (&[u8], &[u8])) -> Result<Row, NoMemory> {
    let mut row = List::new(alloc);
    row.push(List::from_slice(alloc, cells.0)?)?;
    row.push(List::from_slice(alloc, cells.1)?)?;
    Ok(row)
}

/// Puts a row that has a column for each cell.
fn put_cells(text: &mut Bytes, columns: &[Column], row: &[Bytes]) -> Result<(), NoMemory> {
    if row.len() > columns.len() {
        return Ok(());
    }
    put_row(text, columns, row)
}

/// The text of rows of two cells.
fn table(alloc: Global, rows: &List<Row>) -> Result<Bytes, NoMemory> {
    let columns = widened(alloc, &COLUMNS, rows.items())?;
    let mut text = List::new(alloc);
    for i in 0..rows.len() {
        put_cells(&mut text, columns.items(), rows.items()[i].items())?;
    }
    Ok(text)
}

/// Appends rows of these cells.
fn put_rows(alloc: Global, rows: &mut List<Row>, cells: &[(&[u8], &[u8])]) -> Result<(), NoMemory> {
    for pair in cells {
        rows.push(row_of(alloc, *pair)?)?;
    }
    Ok(())
}

/// The table of these cells.
fn table_of(alloc: Global, cells: &[(&[u8], &[u8])]) -> Result<Bytes, NoMemory> {
    let mut rows = List::new(alloc);
    put_rows(alloc, &mut rows, cells)?;
    table(alloc, &rows)
}

/// Whether the small table is the expected one.
fn is_table(alloc: Global) -> Result<bool, NoMemory> {
    Ok(table_of(alloc, &CELLS)?.items() == TABLE)
}

#[test]
fn cells_are_laid_out_in_columns(rt: HostRuntime) {
    assert_eq!(rt; is_table(rt.alloc()), Ok(true));
}

const LONG: [u8; 255] = [b'n'; 255];

/// Whether all lines of a text have this many characters.
fn are_even(text: &[u8], count: usize) -> bool {
    let mut start = 0;
    for i in 0..text.len() {
        if text[i] == b'\n' {
            if start > i || characters(&text[start..i]) != count {
                return false;
            }
            start = i + 1;
        }
    }
    start == text.len()
}

/// Cells beside a name of 255 bytes.
const LONG_CELLS: [(&[u8], &[u8]); 3] = [
    (b"Link", b"Cost"),
    (&LONG, b"5.000"),
    (b"\xe2\x82\xac", b"12345.678"),
];

/// Whether a name of 255 bytes keeps the columns straight: 2 + 255 + 3 + 9 characters in each line.
fn is_straight(alloc: Global) -> Result<bool, NoMemory> {
    Ok(are_even(table_of(alloc, &LONG_CELLS)?.items(), 269))
}

#[test]
fn long_names_keep_columns_straight(rt: HostRuntime) {
    assert_eq!(rt; is_straight(rt.alloc()), Ok(true));
}
