ghost use Rattle.std.specs.Prelude.{◌≡◌, map, IfOk};
ghost use Rattle.sndlib_reader.specs.Spelling.{notes_of};

use net_core::{Link, List, NoMemory, Notes};
use std::alloc::Global;

/// A link with the two costs that a network doesn't keep, in units of the network.
#[derive(Drop)]
pub struct CostedLink {
    pub link: Link,
    pub fixed_cost: u64,
    pub routing_cost: u64,
}

/// Which costs some of these links have.
pub(crate) fn notes_of(links: &[CostedLink]) -> Notes
    ensures { result ≡ notes_of links.now }
{
    let mut notes = Notes {
        fixed_cost: false,
        routing_cost: false,
        setup_cost: false,
    };
    for costed in links {
        notes.fixed_cost |= costed.fixed_cost != 0;
        notes.routing_cost |= costed.routing_cost != 0;
        notes.setup_cost |= costed.link.setup != 0;
    }
    notes
}

/// The links without these costs; none is copied.
pub(crate) fn links_of(alloc: Global, costed: List<CostedLink>) -> Result<List<Link>, NoMemory>
    ensures { IfOk result (λ ls. ls ≡ map (λ l. l.link) costed) }
{
    let mut links = List::new(alloc);
    for l in costed.into_vec() {
        links.push(l.link)?;
    }
    Ok(links)
}
