ghost use Rattle.std.specs.Prelude.{◌≡◌, ℕ, ◌≤◌, ◌<◌, ◌+◌, ◌⊎◌, List as Seq, [], ◌∷◌, IfOk, IfErr, length, map};
ghost use Rattle.net_core.specs.declared.network.Link.{Link as L};
ghost use Rattle.worked_networks.specs.Tables.{RefusesNetwork, ends_of, ends_of_row, letters};

use crate::fault::WorkedFault;
use crate::names::letter;
use net_core::{Link, List, Module, Name, Network, NoMemory, NodeId, Notes, Places};
use std::alloc::Global;

/// A link: its ends by their places among the nodes, its pre-installed capacity in thousandths, and its modules.
pub type LinkRow<'m> = (u32, u32, u64, &'m [Module]);

/// Parallel links between two nodes, of modules of 1.00 for 1.00. A test takes as many as it needs.
pub const PARALLEL: [LinkRow; 4] = [
    (0, 1, 0, &ONE),
    (0, 1, 0, &ONE),
    (0, 1, 0, &ONE),
    (0, 1, 0, &ONE),
];

/// A chain of up to six nodes, of modules of 10.00 for 5.00. A test takes one link less than nodes.
pub const CHAIN: [LinkRow; 5] = [
    (0, 1, 0, &TEN),
    (1, 2, 0, &TEN),
    (2, 3, 0, &TEN),
    (3, 4, 0, &TEN),
    (4, 5, 0, &TEN),
];

/// A ring of four nodes and one chord, of modules of 10.00 for 5.00.
pub const RING: [LinkRow; 5] = [
    (0, 1, 0, &TEN),
    (1, 3, 0, &TEN),
    (3, 2, 0, &TEN),
    (2, 0, 0, &TEN),
    (0, 3, 0, &TEN),
];

/// A module of 10.00 for 5.00.
pub const TEN: [Module; 1] = [Module {
    capacity: 10000,
    cost: 5000,
}];

/// A module of 1.00 for 1.00.
pub const ONE: [Module; 1] = [Module {
    capacity: 1000,
    cost: 1000,
}];

/// The link of a row.
pub(crate) fn link(name: Name, row: &LinkRow, alloc: Global) -> Result<Link, NoMemory>
    ensures { IfOk result (λ l. l ≡ record {
      name = name;
      a = record { 0 = row.now.0 };
      b = record { 0 = row.now.1 };
      fixed = row.now.2;
      setup = 0;
      modules = row.now.3.now;
    }) }
{
    Ok(Link {
        name,
        a: NodeId(row.0),
        b: NodeId(row.1),
        fixed: row.2,
        setup: 0,
        modules: List::from_slice(alloc, row.3)?,
    })
}

/// The links a, b and so on of the rows.
fn links_of(alloc: Global, rows: &[LinkRow]) -> Result<List<Link>, NoMemory>
    requires { length rows.now ≤ 26 }
    ensures { IfOk result (λ links. (map (λ l. l.name) links ≡ letters 97 (length rows.now))
        × (map ends_of links ≡ map ends_of_row rows.now) × (map (λ l. l.modules) links ≡ map (λ r. r.3.now) rows.now)) }
{
    let mut links = List::new(alloc);
    for e in 0..rows.len() {
        links.push(link(letter(alloc, b'a', e)?, &rows[e], alloc)?)?;
    }
    Ok(links)
}

/// The nodes A, B and so on.
pub(crate) fn nodes_of(alloc: Global, count: usize) -> Result<List<Name>, NoMemory>
    requires { count ≤ 26 }
    ensures { IfOk result (λ nodes. (length nodes ≡ count) × (nodes ≡ letters 65 count)) }
{
    let mut nodes = List::new(alloc);
    for n in 0..count {
        nodes.push(letter(alloc, b'A', n)?)?;
    }
    Ok(nodes)
}

/// The network of these nodes and links, of whose costs none is a note, and whose amounts have three places.
pub(crate) fn checked(nodes: List<Name>, links: List<Link>) -> Result<Network, WorkedFault>
    ensures parts { IfOk result (λ net. (net.nodes ≡ nodes) × (net.links ≡ links)) }
    ensures places { IfOk result (λ net. net.places ≡ Places.Three) }
    ensures refused { IfErr result (RefusesNetwork nodes links) }
{
    let notes = Notes {
        fixed_cost: false,
        routing_cost: false,
        setup_cost: false,
    };
    match Network::check(nodes, links, notes, Places::Three) {
        Ok(net) => Ok(net),
        Err(fault) => Err(WorkedFault::Network(fault)),
    }
}

/// The network of up to 26 nodes A, B and so on, and up to 26 links a, b and so on, one for each row, of whose costs none is a
/// note. It has three places, so capacities and costs are in thousandths. Where the rows aren't links of the nodes, the answer is the fault that
/// `Network::check` finds.
///
/// It takes time in the squares of the nodes and of the rows, and in the modules; memory in the nodes, the rows and their modules.
pub fn network(alloc: Global, nodes: usize, rows: &[LinkRow]) -> Result<Network, WorkedFault>
    ensures nodes { IfOk result (λ net. length net.nodes ≡ nodes) }
    ensures places { IfOk result (λ net. net.places ≡ Places.Three) }
    ensures names { IfOk result (λ net. (net.nodes ≡ letters 65 nodes) × (map (λ l. l.name) net.links ≡ letters 97 (length rows.now))) }
    ensures links { IfOk result (λ net. length net.links ≡ length rows.now) }
    ensures ends { IfOk result (λ net. map ends_of net.links ≡ map ends_of_row rows.now) }
    ensures modules { IfOk result (λ net. map (λ l. l.modules) net.links ≡ map (λ r. r.3.now) rows.now) }
    ensures refused { IfErr result (λ fault. (fault ≡ WorkedFault.NoMemory)
        ⊎ ((fault ≡ WorkedFault.TooMany) × ((26 < nodes) ⊎ (26 < length rows.now)))
        ⊎ ((links : Seq L) × (map (λ l. l.name) links ≡ letters 97 (length rows.now)) × (map ends_of links ≡ map ends_of_row rows.now)
        × (map (λ l. l.modules) links ≡ map (λ r. r.3.now) rows.now)
        × RefusesNetwork (letters 65 nodes) links fault)) }
{
    if nodes > 26 || rows.len() > 26 {
        return Err(WorkedFault::TooMany);
    }
    let names = nodes_of(alloc, nodes)?;
    let links = links_of(alloc, rows)?;
    checked(names, links)
}
