ghost use Rattle.std.specs.Prelude.{◌≡◌, ◌-◌, ◌<◌, [], IfOk, length, slice_index, slice_index_or, slice_set};
ghost use Rattle.trim_plan.specs.Trimmed.{module_count, one_less};

use net_core::{Copied, Counts, List, NoMemory};

/// A module: its link, and its place among the link's modules.
#[derive(Clone, Copy)]
pub struct Place {
    pub link: usize,
    pub module: usize,
}

/// The number at a place; 0 past the end.
fn number_at(numbers: &[u64], at: usize) -> u64
    ensures { result ≡ slice_index numbers.now at }
{
    if at < numbers.len() { numbers[at] } else { 0 }
}

/// The count of a module; 0 where there is none at this place. It takes constant time, and no memory.
pub fn module_count(counts: &Counts, place: Place) -> u64
    ensures { result ≡ module_count counts.now place.link place.module }
{
    let lists = counts.items();
    if place.link < lists.len() {
        number_at(lists[place.link].items(), place.module)
    } else {
        0
    }
}

/// Takes one module off a link's counts.
fn lower_module(counts: &mut [u64], m: usize)
    requires inside { m < length counts.old }
    requires some { 0 < slice_index counts.old m }
    ensures { counts.new ≡ slice_set counts.old m (slice_index counts.old m - 1) }
{
    counts[m] -= 1;
}

/// Takes one module off the counts of a link in the list.
fn lower_link(counts: &mut [List<u64>], e: usize, m: usize)
    requires link { e < length counts.old }
    requires inside { m < length (slice_index_or counts.old e []) }
    requires some { 0 < slice_index (slice_index_or counts.old e []) m }
    ensures { counts.new ≡ one_less counts.old e m }
{
    lower_module(counts[e].items_mut(), m);
}

/// The counts with one module less. It takes time and memory for a copy of the counts.
pub fn one_less(counts: &Counts, place: Place) -> Result<Counts, NoMemory>
    requires { 0 < module_count counts.now place.link place.module }
    ensures { IfOk result (λ lower. lower ≡ one_less counts.now place.link place.module) }
{
    let mut lower = counts.copy()?;
    lower_link(lower.items_mut(), place.link, place.module);
    Ok(lower)
}
