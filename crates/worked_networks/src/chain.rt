ghost use Rattle.std.specs.Prelude.{◌<◌, ◌≤◌};

use net_core::{Link, List, Module, Name, NodeId};
use std::alloc::Global;

/// How many stages the chain has.
pub const STAGES: u32 = 60;

/// The demands of the chain: the places of their ends among the nodes, and their needs in thousandths. Each pair of them fills twenty stages:
/// 0.303 + 0.202 = 0.505.
pub const CHAIN_DEMANDS: [(u32, u32, u64); 6] = [
    (0, 20, 303),
    (0, 20, 202),
    (20, 40, 303),
    (20, 40, 202),
    (40, 60, 303),
    (40, 60, 202),
];

/// A module of 10.00 for 6.00.
const MODULE: [Module; 1] = [Module {
    capacity: 10000,
    cost: 6000,
}];

/// A number as a name of three digits, such as `007`; `None` if memory runs out. It takes constant time, and memory for the digits.
pub fn numbered(alloc: Global, k: u32) -> Option<Name>
    requires { k < 1000 }
{
    let digits = [
        b'0' + (k / 100) as u8,
        b'0' + (k / 10 % 10) as u8,
        b'0' + (k % 10) as u8,
    ];
    Name::new(alloc, &digits).ok()
}

/// The names `000`, `001` and so on of this many nodes; `None` if memory runs out. It takes time and memory in their number.
pub fn numbered_nodes(alloc: Global, count: u32) -> Option<List<Name>>
    requires { count ≤ 1000 }
{
    let mut nodes = List::new(alloc);
    for k in 0..count {
        nodes.push(numbered(alloc, k)?).ok()?;
    }
    Some(nodes)
}

/// What one of a stage's two links has of its capacity, in thousandths.
fn share(k: u32) -> u64
    requires { k < 120 }
{
    let part = ((1u128 << (k / 2)) % 101) as u64;
    if k % 2 == 0 { 202 + part } else { 303 - part }
}

/// A link of the chain, of which two are a stage.
fn chain_link(alloc: Global, k: u32) -> Option<Link>
    requires { k < 120 }
{
    Some(Link {
        name: numbered(alloc, k)?,
        a: NodeId(k / 2),
        b: NodeId(k / 2 + 1),
        fixed: share(k),
        setup: 0,
        modules: List::from_slice(alloc, &MODULE).ok()?,
    })
}

/// The 120 links of the chain, two from each node to the next, each with its part of 0.505 as pre-installed capacity; `None` if memory runs out.
/// It takes time and memory in their number.
pub fn chain_links(alloc: Global) -> Option<List<Link>> {
    let mut links = List::new(alloc);
    for k in 0..2 * STAGES {
        links.push(chain_link(alloc, k)?).ok()?;
    }
    Some(links)
}
