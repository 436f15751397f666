ghost use Rattle.std.specs.Prelude.{◌<◌, All, IsTrue, length};
ghost use Rattle.line_maker.specs.inner.Candidates.{IsNarrowLink, IsNarrowSum};

use line_check::{Multiplier, Tested, module_price, summed_need};
use net_core::Link;

/// The numbers of a sum stay below this.
const WIDE: u128 = 1 << 126;

/// Whether what the modules of a link give to a sum of lines keeps its limit.
fn is_narrow_link(tested: &[Tested], terms: &[Multiplier], e: usize, modules: usize) -> bool
    requires { All (λ x. x.cut < length tested.now) terms.now }
    ensures { IsTrue result → IsNarrowLink tested.now terms.now e modules }
{
    for m in 0..modules {
        if module_price(tested, terms, e, m) >= WIDE {
            return false;
        }
    }
    true
}

/// Whether all numbers of a sum of lines keep their limits. It takes time in the lines times the modules.
pub(crate) fn is_narrow(links: &[Link], tested: &[Tested], terms: &[Multiplier]) -> bool
    requires { All (λ x. x.cut < length tested.now) terms.now }
    ensures { IsTrue result → IsNarrowSum links.now tested.now terms.now }
{
    if summed_need(tested, terms) >= WIDE {
        return false;
    }
    for e in 0..links.len() {
        if !is_narrow_link(tested, terms, e, links[e].modules.len()) {
            return false;
        }
    }
    true
}
