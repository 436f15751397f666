ghost use Rattle.std.specs.Prelude.{◌≡◌, ◌≤◌, ◌^◌, ℕ, [], IfOk, false};
ghost use Rattle.line_check.specs.Testing.{names_by};
ghost use Rattle.tree_check.specs.BoxValues.{HasBoxValue};
ghost use Rattle.tree_boxes.{specs.Causes.HasFreeValue, specs.Searches.{IsAim, IsKnown, aimed}, specs.Finds.{IsSearchBox, IsValued}};

use crate::aim::Aim;
use crate::known::Known;
use net_core::{Copied, List, NoMemory};
use std::alloc::Global;
use tree_check::nodes::value_in;
use tree_check::{BoxCert, Boxed};

/// A certificate with its value for a box: no counts of the box cost less than this many units of the network.
#[derive(Drop)]
pub struct Valued {
    pub cert: BoxCert,
    pub value: u128,
}

/// The certificate of no lines. It takes constant time, and no memory.
pub fn empty_cert(alloc: Global) -> BoxCert
    ensures { result ≡ record { den = 1; lines = [] } }
{
    BoxCert {
        den: 1,
        lines: List::new(alloc),
    }
}

/// A copy of a certificate. It takes time and memory in the number of its lines.
pub fn copied(cert: &BoxCert) -> Result<BoxCert, NoMemory>
    ensures { IfOk result (λ copy. copy ≡ cert.now) }
{
    Ok(BoxCert {
        den: cert.den,
        lines: cert.lines.copy()?,
    })
}

/// The certificate of greater value for a box: the best one so far, or a copy of another if that exceeds it.
pub(crate) fn greater(
    aim: &Aim,
    known: &Known,
    boxed: &Boxed,
    best: Valued,
    cert: &BoxCert,
) -> Result<Valued, NoMemory>
    requires best { HasBoxValue (names_by known.now.tested false) (aimed aim.now).links boxed.now best.cert best.value }
    ensures has { IfOk result (λ v. HasBoxValue (names_by known.now.tested false) (aimed aim.now).links boxed.now v.cert v.value) }
    ensures more { IfOk result (λ v. best.value ≤ v.value) }
    ensures most { IfOk result (λ v. (value : ℕ)
        → HasBoxValue (names_by known.now.tested false) (aimed aim.now).links boxed.now cert.now value
        → value ≤ v.value) }
{
    let tests = known.tests(aim);
    match value_in(&tests, boxed, cert) {
        None => Ok(best),
        Some(value) => {
            if value <= best.value {
                return Ok(best);
            }
            let cert = copied(cert)?;
            Ok(Valued { cert, value })
        }
    }
}

/// The certificate of no lines, with its value for a box.
fn empty_valued(alloc: Global, aim: &Aim, known: &Known, boxed: &Boxed) -> Valued
    requires search_box { IsSearchBox (aimed aim.now).links (2 ^ 14) boxed.now }
    ensures has { HasBoxValue (names_by known.now.tested false) (aimed aim.now).links boxed.now result.cert result.value }
    ensures is { HasFreeValue (aimed aim.now).links boxed.now result.value }
{
    let cert = empty_cert(alloc);
    let tests = known.tests(aim);
    match value_in(&tests, boxed, &cert) {
        None => unreachable!(),
        Some(value) => Valued { cert, value },
    }
}

/// The certificate of greatest value for a box among three: the one of no lines, the plan's, and the one of the box that was split.
pub(crate) fn greatest(
    alloc: Global,
    aim: &Aim,
    known: &Known,
    boxed: &Boxed,
    inherited: &BoxCert,
) -> Result<Valued, NoMemory>
    requires known { IsKnown (aimed aim.now) known.now }
    requires aim { IsAim known.now.entries aim.now }
    requires search_box { IsSearchBox (aimed aim.now).links (2 ^ 14) boxed.now }
    ensures valued { IfOk result (IsValued (aimed aim.now) aim.now.plan.now known.now.tested boxed.now) }
    ensures free { IfOk result (λ v. (value : ℕ) → HasFreeValue (aimed aim.now).links boxed.now value → value ≤ v.value) }
{
    let empty = empty_valued(alloc, aim, known, boxed);
    let best = greater(aim, known, boxed, empty, aim.own)?;
    greater(aim, known, boxed, best, inherited)
}
