ghost use Rattle.std.specs.Prelude.{◌≡◌, ◌<◌, ◌↔◌, IsTrue, length};
ghost use Rattle.tree_check.specs.Terms.{module_number, IsFixedSpan};

use net_core::Link;
use tree_check::Span;

/// How many modules a link of the network has. It takes constant time.
pub fn modules_of(links: &[Link], e: usize) -> usize
    requires { e < length links.now }
    ensures { result ≡ module_number links.now e }
{
    links[e].modules.len()
}

/// The cost of a module; 0 where there is none at this place.
pub(crate) fn cost_at(links: &[Link], e: usize, m: usize) -> u64 {
    if e < links.len() && m < links[e].modules.len() {
        links[e].modules.items()[m].cost
    } else {
        0
    }
}

/// Whether a span has one count alone. It takes constant time.
pub fn is_fixed(span: &Span) -> bool
    ensures { IsTrue result ↔ IsFixedSpan span.now }
{
    match span.most {
        None => false,
        Some(most) => span.least == most as u128,
    }
}
