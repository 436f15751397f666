ghost use Rattle.std.specs.Prelude.{◌≡◌, ◌++◌, IfOk, OnOk};
ghost use Rattle.csv.{specs.Records.fields_of, specs.Writing.{default_writer, row_text}};
ghost use Rattle.view_csv.specs.CommaSeparated.{csv_text};

use csv::{ByteRecord, WriterBuilder};
use net_core::{Bytes, List, NoMemory};
use std::alloc::Global;

/// The fields of a row, as a record of the library.
fn fields_of_row(alloc: Global, row: &[Bytes]) -> Result<ByteRecord, NoMemory>
    ensures { IfOk result (λ fields. fields_of fields ≡ row.now) }
{
    let mut fields = ByteRecord::new(alloc);
    for field in row {
        fields.push_field(field.items())?;
    }
    Ok(fields)
}

/// The line of a row. A write into memory fails only if there is none left.
fn row_bytes(alloc: Global, row: &[Bytes]) -> Result<Bytes, NoMemory>
    ensures { IfOk result (λ line. line ≡ row_text default_writer row.now) }
{
    let fields = fields_of_row(alloc, row)?;
    let mut writer = WriterBuilder::new().from_writer(Vec::new(alloc));
    if writer.write_byte_record(&fields).is_err() {
        return Err(NoMemory);
    }
    match writer.into_inner() {
        Ok(line) => Ok(List::from_vec(line)),
        Err(_) => Err(NoMemory),
    }
}

/// Appends the line of a row.
fn put_row(text: &mut Bytes, alloc: Global, row: &[Bytes]) -> Result<(), NoMemory>
    ensures { OnOk result (text.new ≡ text.old ++ row_text default_writer row.now) }
{
    let line = row_bytes(alloc, row)?;
    text.append(line.items())?;
    Ok(())
}

/// Appends a line for each row: its fields with commas between them. A field with a comma, a quote or a line break is written between quotes,
/// and each quote in it twice. If memory runs out, the text may end with a part of the lines. It takes time in the fields, a buffer of 8 KB,
/// and memory for the lines.
///
/// ```text
/// put_csv(&mut text, alloc, &rows)?;   // a row with the fields a and 1,5: the line a,"1,5"
/// ```
pub fn put_csv(text: &mut Bytes, alloc: Global, rows: &[List<Bytes>]) -> Result<(), NoMemory>
    ensures { OnOk result (text.new ≡ text.old ++ csv_text rows.now) }
{
    for row in rows {
        put_row(text, alloc, row.items())?;
    }
    Ok(())
}
