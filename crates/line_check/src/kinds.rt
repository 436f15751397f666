ghost use Rattle.std.specs.Prelude.{◌≡◌, ◌+◌, ◌<◌, ◌≤◌, ◌⊎◌, ℕ, IfOk};
ghost use Rattle.line_check.{specs.Inequalities.need_of, specs.Lines.{AreKinds, GivesSome, capped}, specs.inner.Tables.GivesOn};

use crate::inequality::{Inequality, coefficient};
use net_core::{Link, List, NoMemory};
use std::alloc::Global;

/// What a module gives at most towards what a line needs.
pub(crate) fn capped(over: &Inequality, need: u32, e: usize, m: usize) -> u32
    requires { need ≡ need_of over.now }
    ensures { result ≡ capped over.now e m }
{
    coefficient(over, e, m).min(need as u128) as u32
}

/// The least of what modules of a link give above a number, where it is below the best so far; else the best so far.
fn next_on_link(
    over: &Inequality,
    need: u32,
    e: usize,
    modules: usize,
    above: u32,
    best: u32,
) -> u32
    requires { need ≡ need_of over.now }
    ensures below { result ≤ best }
    ensures least { (m : ℕ) → m < modules → above < capped over.now e m → result ≤ capped over.now e m }
    ensures is { (result ≡ best) ⊎ ((above < result) × GivesOn over.now e modules result) }
{
    let mut least = best;
    for m in 0..modules {
        let gives = capped(over, need, e, m);
        if above < gives && gives < least {
            least = gives;
        }
    }
    least
}

/// The least of what modules give above a number; one more than is needed where no module gives more.
fn next_kind(links: &[Link], over: &Inequality, need: u32, above: u32) -> u32
    requires need { need ≡ need_of over.now }
    requires few { need ≤ 4096 }
    ensures least { (n : ℕ) → above < n → GivesSome links.now over.now n → result ≤ n }
    ensures is { (result ≡ need + 1) ⊎ ((above < result) × GivesSome links.now over.now result) }
{
    let mut best = need + 1;
    for e in 0..links.len() {
        best = next_on_link(over, need, e, links[e].modules.len(), above, best);
    }
    best
}

/// What modules give, where that is positive, each number once, the least first.
/// It takes time in the modules times the kinds.
pub(crate) fn kinds_of(
    alloc: Global,
    links: &[Link],
    over: &Inequality,
    need: u32,
) -> Result<List<u32>, NoMemory>
    requires need { need ≡ need_of over.now }
    requires few { need ≤ 4096 }
    ensures { IfOk result (AreKinds links.now over.now) }
{
    let mut kinds = List::new(alloc);
    let mut last = 0;
    while last < need {
        let next = next_kind(links, over, need, last);
        if need < next {
            return Ok(kinds);
        }
        kinds.push(next)?;
        last = next;
    }
    Ok(kinds)
}
