ghost use Rattle.std.specs.Prelude.{◌<◌, ◌^◌, All, OnOk, flat_map};
ghost use Rattle.text_kit.specs.Terms.{enclosed, AddsItems};
ghost use Rattle.plan_report.specs.Items.{numbered_from, pool_line_items};

use crate::lists::put_lengths;
use net_core::{Bytes, CutLine, NoMemory};
use text_kit::puts::{put_close, put_field, put_keyword, put_number, put_open, put_whole};

/// Puts the cut at a place of the pool last.
fn put_pool_line(text: &mut Bytes, index: u64, cut: &CutLine) -> Result<(), NoMemory>
    requires { cut.now.right < 2 ^ 84 }
    ensures { OnOk result (AddsItems text.old (pool_line_items (index, cut.now)) text.new) }
{
    put_open(text)?;
    put_number(text, index)?;
    put_field(text, b"state", cut.state.0 as u64)?;
    put_keyword(text, b"right")?;
    put_whole(text, cut.right)?;
    put_lengths(text, cut.lengths.items())?;
    put_close(text)
}

/// Puts a pool last, between parentheses.
pub(crate) fn put_pool(text: &mut Bytes, pool: &[CutLine]) -> Result<(), NoMemory>
    requires { All (λ cut. cut.right < 2 ^ 84) pool.now }
    ensures { OnOk result (AddsItems text.old (enclosed (flat_map pool_line_items (numbered_from 0 pool.now))) text.new) }
{
    put_open(text)?;
    for i in 0..pool.len() {
        put_pool_line(text, i as u64, &pool[i])?;
    }
    put_close(text)
}
