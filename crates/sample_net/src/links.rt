ghost use Rattle.std.specs.Prelude.{◌≡◌, ◌≤◌, ◌*◌, IfOk, OnOk, length};
ghost use Rattle.sample_net.{specs.Draws.{nth_draw, nth_number}, specs.Samples.{sample_link, sample_modules, links_between}};

use crate::draws::Draws;
use crate::ends::Ends;
use crate::names::numbered;
use net_core::{Link, List, Module, NoMemory, NodeId};
use std::alloc::Global;

/// The two modules of a link, each with one draw: 155.00 for 20 to 99 whole units, and 622.00 for 50 to 249.
fn modules(draws: &mut Draws) -> [Module; 2]
    ensures modules { result ≡ sample_modules (nth_draw draws.old.number 0 80) (nth_draw draws.old.number 1 200) }
    ensures draws { draws.new.number ≡ nth_number draws.old.number 2 }
{
    let small = draws.below(80) as u64;
    let large = draws.below(200) as u64;
    [
        Module {
            capacity: 155_000,
            cost: (20 + small) * 1000,
        },
        Module {
            capacity: 622_000,
            cost: (50 + large) * 1000,
        },
    ]
}

/// The link of this number, with two draws.
fn link(alloc: Global, e: u32, ends: Ends, draws: &mut Draws) -> Result<Link, NoMemory>
    ensures link { IfOk result (λ l. l ≡ sample_link e ends (nth_draw draws.old.number 0 80) (nth_draw draws.old.number 1 200)) }
    ensures draws { OnOk result (draws.new.number ≡ nth_number draws.old.number 2) }
{
    Ok(Link {
        name: numbered(alloc, b'l', e)?,
        a: NodeId(ends.0),
        b: NodeId(ends.1),
        fixed: 0,
        setup: 0,
        modules: List::from_slice(alloc, &modules(draws))?,
    })
}

/// The links between these ends, in order.
pub(crate) fn links_between(
    alloc: Global,
    ends: &[Ends],
    draws: &mut Draws,
) -> Result<List<Link>, NoMemory>
    requires { length ends.now ≤ 60 }
    ensures links { IfOk result (λ links. links ≡ links_between draws.old.number ends.now) }
    ensures draws { OnOk result (draws.new.number ≡ nth_number draws.old.number (2 * length ends.now)) }
{
    let mut links = List::new(alloc);
    for e in 0..ends.len() {
        links.push(link(alloc, e as u32, ends[e], draws)?)?;
    }
    Ok(links)
}
