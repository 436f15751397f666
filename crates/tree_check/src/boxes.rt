ghost use Rattle.std.specs.Prelude.{◌≡◌, ℕ, ◌+◌, ◌<◌, ◌^◌, ◌↔◌, [], IfOk, IfSome, IsTrue, Some, length, map, slice_index_or, slice_set, unwrap_or};
ghost use Rattle.tree_check.specs.Boxes.{IsSplitOf, any_count, beyond, span_at, up_to, whole_box, with_span};

use net_core::{Copied, Link, List, Network, NoMemory};
use std::alloc::Global;

/// The counts that a box allows of a module: from the least on, up to the greatest where there is one.
#[derive(Clone, Copy, Debug, PartialEq, Eq)]
pub struct Span {
    pub least: u128,
    pub most: Option<u64>,
}

/// A box: a span for each module of each link.
pub type Boxed = List<List<Span>>;

/// The span of all counts.
const ANY_COUNT: Span = Span {
    least: 0,
    most: None,
};

/// The whole box: all counts of each module. It takes memory for a span of each module.
pub fn whole_box(alloc: Global, net: &Network) -> Result<Boxed, NoMemory>
    ensures { IfOk result (λ box. box ≡ whole_box net.now.links) }
{
    let links = net.links().items();
    let mut spans = List::new(alloc);
    for link in links {
        spans.push(List::filled(alloc, ANY_COUNT, link.modules.len())?)?;
    }
    Ok(spans)
}

/// The span at a place of a list; all counts past its end.
fn span_in(spans: &[Span], m: usize) -> Span
    ensures { result ≡ slice_index_or spans.now m any_count }
{
    if m < spans.len() { spans[m] } else { ANY_COUNT }
}

/// The span of a module; all counts where there is no such module. It takes constant time.
pub fn span_at(boxed: &[List<Span>], e: usize, m: usize) -> Span
    ensures { result ≡ span_at boxed.now e m }
{
    if e < boxed.len() {
        span_in(boxed[e].items(), m)
    } else {
        ANY_COUNT
    }
}

/// Whether a box can be split at a module and a number: the number is at least its least count, and below its greatest. It takes constant time.
pub fn is_split(boxed: &[List<Span>], e: usize, m: usize, at: u64) -> bool
    ensures { IsTrue result ↔ IsSplitOf boxed.now e m at }
{
    if e >= boxed.len() || m >= boxed[e].len() {
        return false;
    }
    let span = span_at(boxed, e, m);
    let below = match span.most {
        None => true,
        Some(most) => at < most,
    };
    span.least <= at as u128 && below
}

fn set_in(spans: &mut [Span], m: usize, span: Span)
    requires { m < length spans.old }
    ensures { spans.new ≡ slice_set spans.old m span }
{
    spans[m] = span;
}

fn set_span(boxed: &mut [List<Span>], e: usize, m: usize, span: Span)
    requires link { e < length boxed.old }
    requires inside { m < length (slice_index_or boxed.old e []) }
    ensures { boxed.new ≡ with_span boxed.old e m span }
{
    set_in(boxed[e].items_mut(), m, span);
}

/// The box with another span of a module.
fn with_span(boxed: &Boxed, e: usize, m: usize, span: Span) -> Result<Boxed, NoMemory>
    requires link { e < length boxed.now }
    requires inside { m < length (slice_index_or boxed.now e []) }
    ensures { IfOk result (λ box. box ≡ with_span boxed.now e m span) }
{
    let mut spans = boxed.copy()?;
    set_span(spans.items_mut(), e, m, span);
    Ok(spans)
}

/// The side of a split with at most `at` modules of the kind. It copies the box: time and memory in the number of modules.
pub fn lower_side(boxed: &Boxed, e: usize, m: usize, at: u64) -> Result<Boxed, NoMemory>
    requires { IsSplitOf boxed.now e m at }
    ensures { IfOk result (λ box. box ≡ with_span boxed.now e m (up_to at (span_at boxed.now e m))) }
{
    let span = span_at(boxed.items(), e, m);
    with_span(
        boxed,
        e,
        m,
        Span {
            least: span.least,
            most: Some(at),
        },
    )
}

/// The side of a split with more of them. It copies the box: time and memory in the number of modules.
pub fn upper_side(boxed: &Boxed, e: usize, m: usize, at: u64) -> Result<Boxed, NoMemory>
    requires { IsSplitOf boxed.now e m at }
    ensures { IfOk result (λ box. box ≡ with_span boxed.now e m (beyond at (span_at boxed.now e m))) }
{
    let span = span_at(boxed.items(), e, m);
    with_span(
        boxed,
        e,
        m,
        Span {
            least: at as u128 + 1,
            most: span.most,
        },
    )
}
