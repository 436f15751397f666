ghost use Rattle.std.specs.Prelude.{◌≡◌, ◌++◌, OnOk};
ghost use Rattle.text_layout.specs.Cells.{left_cell, right_cell, spaces};

use crate::characters;
use net_core::{Bytes, NoMemory};

/// Appends `count` spaces. Each function of this crate that appends something takes time in its bytes, and asks for memory only if the text
/// has no room left; if memory runs out, the text may end with a part of what was to be appended.
pub fn put_spaces(text: &mut Bytes, count: usize) -> Result<(), NoMemory>
    ensures { OnOk result (text.new ≡ text.old ++ spaces count) }
{
    for _put in 0..count {
        text.append(b" ")?;
    }
    Ok(())
}

/// Appends a cell and as many spaces as it needs to have this width, in characters; a wider cell isn't cut. It takes time in the width and the
/// cell.
pub fn put_left(text: &mut Bytes, width: usize, cell: &[u8]) -> Result<(), NoMemory>
    ensures { OnOk result (text.new ≡ text.old ++ left_cell width cell.now) }
{
    text.append(cell)?;
    put_spaces(text, width.saturating_sub(characters(cell)))
}

/// Appends a cell after as many spaces as it needs to have this width, in characters; a wider cell isn't cut. It takes time in the width and
/// the cell.
pub fn put_right(text: &mut Bytes, width: usize, cell: &[u8]) -> Result<(), NoMemory>
    ensures { OnOk result (text.new ≡ text.old ++ right_cell width cell.now) }
{
    put_spaces(text, width.saturating_sub(characters(cell)))?;
    text.append(cell)
}
