ghost use Rattle.std.specs.Prelude.{◌<◌, ◌^◌, All, OnOk};
ghost use Rattle.text_kit.specs.Terms.{AddsItems};
ghost use Rattle.plan_report.{specs.Forms.IsPathInForm, specs.Items.{numbers_items, path_items}};

use crate::names::put_link;
use net_core::{Bytes, Link, LinkId, NoMemory};
use text_kit::puts::{put_close, put_number, put_open, put_whole};

/// Puts lengths last, between parentheses.
pub(crate) fn put_lengths(text: &mut Bytes, lengths: &[u32]) -> Result<(), NoMemory>
    ensures { OnOk result (AddsItems text.old (numbers_items lengths.now) text.new) }
{
    put_open(text)?;
    for n in lengths {
        put_number(text, *n as u64)?;
    }
    put_close(text)
}

/// Puts counts or units last, between parentheses.
pub(crate) fn put_counts(text: &mut Bytes, counts: &[u64]) -> Result<(), NoMemory>
    ensures { OnOk result (AddsItems text.old (numbers_items counts.now) text.new) }
{
    put_open(text)?;
    for n in counts {
        put_number(text, *n)?;
    }
    put_close(text)
}

/// Puts capacities last, between parentheses.
pub(crate) fn put_capacities(text: &mut Bytes, nums: &[u128]) -> Result<(), NoMemory>
    requires { All (λ n. n < 2 ^ 126) nums.now }
    ensures { OnOk result (AddsItems text.old (numbers_items nums.now) text.new) }
{
    put_open(text)?;
    for n in nums {
        put_whole(text, *n)?;
    }
    put_close(text)
}

/// Puts the links of a path last, between parentheses.
pub(crate) fn put_path(text: &mut Bytes, links: &[Link], path: &[LinkId]) -> Result<(), NoMemory>
    requires { IsPathInForm links.now path.now }
    ensures { OnOk result (AddsItems text.old (path_items links.now path.now) text.new) }
{
    put_open(text)?;
    for e in path {
        put_link(text, links, *e)?;
    }
    put_close(text)
}
