ghost use Rattle.std.specs.Prelude.{◌≡◌, ◌≤◌, ◌<◌, ◌^◌, All, length, true, false};
ghost use Rattle.master_law.specs.Terms.{cut_gain};
ghost use Rattle.net_core.specs.Limits.{most_links};
ghost use Rattle.master_bound.specs.Narrow.{length_entry, HaveNarrowEntries, HaveWideEntry, IsNarrowCut, IsWideCut, FindsWideCut};

use metric_cut::fixed_along;
use module_prices::UnitPair;
use net_core::{CutLine, Link};

/// Numbers of a program that is solved are below this.
const WIDE: u128 = 1 << 62;

/// What a cut asks for beyond what the pre-installed capacities give, in units of the network; below 0 where they give more. It takes
/// time in the number of links, and no memory.
///
/// A cut with a length of 1 on one link, and the right side 10, gains 4 where that link has 6 pre-installed.
pub fn gain_of(links: &[Link], cut: &CutLine) -> i128
    requires few { length links.now ≤ most_links }
    requires sound { All (λ l. l.fixed < 2 ^ 40) links.now }
    requires count { length cut.now.lengths ≡ length links.now }
    requires right { cut.now.right < 2 ^ 84 }
    ensures { result ≡ cut_gain links.now cut.now }
{
    let fixed = fixed_along(links, cut.lengths.items());
    cut.right as i128 - fixed as i128
}

/// What a unit of lengths takes of the row of link `e`: its length times the capacity of the link's unit pair. It takes constant time, and
/// no memory.
pub fn entry_of(pairs: &[UnitPair], lengths: &[u32], e: usize) -> u128
    requires pairs { e < length pairs.now }
    requires lengths { e < length lengths.now }
    ensures { result ≡ length_entry pairs.now lengths.now e }
{
    lengths[e] as u128 * pairs[e].capacity as u128
}

/// Whether an entry of a cut is 2^62 or more.
fn has_wide_entry(pairs: &[UnitPair], lengths: &[u32]) -> bool
    requires { length lengths.now ≡ length pairs.now }
    ensures yes { result ≡ true → HaveWideEntry pairs.now lengths.now }
    ensures no { result ≡ false → HaveNarrowEntries pairs.now lengths.now }
{
    for e in 0..lengths.len() {
        if entry_of(pairs, lengths, e) >= WIDE {
            return true;
        }
    }
    false
}

/// Whether a number of a cut is 2^62 or more.
fn is_wide(links: &[Link], pairs: &[UnitPair], cut: &CutLine) -> bool
    requires few { length links.now ≤ most_links }
    requires sound { All (λ l. l.fixed < 2 ^ 40) links.now }
    requires count { length cut.now.lengths ≡ length links.now }
    requires pairs { length pairs.now ≡ length links.now }
    requires right { cut.now.right < 2 ^ 84 }
    ensures yes { result ≡ true → IsWideCut links.now pairs.now cut.now }
    ensures no { result ≡ false → IsNarrowCut links.now pairs.now cut.now }
{
    cut.right >= WIDE
        || gain_of(links, cut).unsigned_abs() >= WIDE
        || has_wide_entry(pairs, cut.lengths.items())
}

/// The place of the first cut of which a number is 2^62 or more: right sides may have 84 bits, and a program is solved with 62.
pub(crate) fn wide_cut(links: &[Link], pairs: &[UnitPair], cuts: &[CutLine]) -> Option<usize>
    requires few { length links.now ≤ most_links }
    requires sound { All (λ l. l.fixed < 2 ^ 40) links.now }
    requires counts { All (λ cut. length cut.lengths ≡ length links.now) cuts.now }
    requires pairs { length pairs.now ≡ length links.now }
    requires right { All (λ cut. cut.right < 2 ^ 84) cuts.now }
    ensures { FindsWideCut links.now pairs.now cuts.now result }
{
    for k in 0..cuts.len() {
        if is_wide(links, pairs, &cuts[k]) {
            return Some(k);
        }
    }
    None
}
