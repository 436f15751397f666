//! Small problems, and boards of them.
ghost use Rattle.std.specs.Prelude.{◌≡◌, [], IfSome};

use cut_pool::Board;
use net_core::{Copied, Network, Problem, States};
use std::alloc::Global;
use worked_networks::{LinkRow, TEN, failing, network, problem, triangle};

/// A triangle, of modules of 10.00 for 5.00.
pub const TRIANGLE: [LinkRow; 3] = [(0, 1, 0, &TEN), (1, 2, 0, &TEN), (0, 2, 0, &TEN)];

/// A network with its failure states.
#[derive(Drop)]
pub struct Place {
    pub net: Network,
    pub states: States,
}

/// The network of these links, where each state fails the links of a row.
pub fn place_of(alloc: Global, nodes: usize, links: &[LinkRow], fail: &[&[u32]]) -> Option<Place> {
    let net = network(alloc, nodes, links).ok()?;
    let states = failing(alloc, &net, fail).ok()?;
    Some(Place { net, states })
}

/// The triangle with a demand of 12.00 from A to C. Its links AB, BC and AC fail alone, in this order.
pub fn one_demand(alloc: Global) -> Option<Problem> {
    problem(alloc, triangle(alloc, 0).ok()?, &[(0, 2, 12000)]).ok()
}

/// A new board of the problem.
pub fn open_board(alloc: Global, problem: &Problem) -> Option<Board<'_>>
    ensures net { IfSome result (λ b. b.net.now ≡ problem.now.net) }
    ensures states { IfSome result (λ b. b.states.now ≡ problem.now.states) }
    ensures empty { IfSome result (λ b. b.entries ≡ []) }
{
    let opening = problem.demands.copy().ok()?;
    Board::new(alloc, &problem.net, &problem.states, opening).ok()
}
