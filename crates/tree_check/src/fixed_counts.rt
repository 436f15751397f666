ghost use Rattle.std.specs.Prelude.{◌≡◌, All, IfOk, MatchOption, Some, map};
ghost use Rattle.tree_check.specs.Boxes.{IsFixedBox, IsFixedSpan, least_counts};

use crate::boxes::Span;
use net_core::{Counts, List, NoMemory};
use std::alloc::Global;

/// The one count of a span; none where it has more.
fn only_count(span: &Span) -> Option<u64>
    ensures { MatchOption result (IsFixedSpan span.now → ⊥) (λ n. IsFixedSpan span.now × (n ≡ span.now.least)) }
{
    match span.most {
        None => None,
        Some(most) => {
            if span.least == most as u128 {
                Some(most)
            } else {
                None
            }
        }
    }
}

/// The counts of spans that have one each; none where one has more.
fn only_counts(alloc: Global, spans: &[Span]) -> Result<Option<List<u64>>, NoMemory>
    ensures { IfOk result (λ o. MatchOption o (All IsFixedSpan spans.now → ⊥)
        (λ counts. All IsFixedSpan spans.now × (counts ≡ map (λ s. s.least) spans.now))) }
{
    let mut counts = List::new(alloc);
    for s in spans {
        match only_count(s) {
            None => return Ok(None),
            Some(n) => counts.push(n)?,
        }
    }
    Ok(Some(counts))
}

/// The counts of a box that has one for each module; none where it has more. It takes time and memory in the number of modules.
pub fn fixed_counts(alloc: Global, boxed: &[List<Span>]) -> Result<Option<Counts>, NoMemory>
    ensures { IfOk result (λ o. MatchOption o (IsFixedBox boxed.now → ⊥) (λ counts. IsFixedBox boxed.now × (counts ≡ least_counts boxed.now))) }
{
    let mut counts = List::new(alloc);
    for spans in boxed {
        match only_counts(alloc, spans.items())? {
            None => return Ok(None),
            Some(c) => counts.push(c)?,
        }
    }
    Ok(Some(counts))
}
