ghost use Rattle.std.specs.Prelude.{◌≡◌, ◌*◌, ◌<◌, ◌≤◌, ◌^◌, [], All, IfOk, length, map, slice_index, slice_index_or, zip};
ghost use Rattle.line_check.specs.Inequalities.{coefficients_of, entry, line_of_cut};

use metric_cut::fixed_along;
use net_core::{CutLine, Link, List, Module, Network, NoMemory};
use std::alloc::Global;

/// An inequality: the sum of each count of modules times its coefficient, plus what is given without modules, is at least the right side.
/// A cut's coefficient of a module is its capacity times the length of its link.
#[derive(Drop)]
pub struct Inequality {
    /// One coefficient for each module of each link.
    pub coefs: List<List<u128>>,
    /// What is given without modules.
    pub given: u128,
    pub right: u128,
}

/// The coefficients of a link's modules.
fn link_coefs(alloc: Global, far: u32, modules: &[Module]) -> Result<List<u128>, NoMemory>
    ensures { IfOk result (λ coefs. coefs ≡ map (λ m. far * m.capacity) modules.now) }
{
    let mut coefs = List::new(alloc);
    for m in modules {
        coefs.push(far as u128 * m.capacity as u128)?;
    }
    Ok(coefs)
}

/// The coefficients of all modules.
#[tactic(auto, using(crate::proofs::LinesMade::coefficients_more))]
fn all_coefs(alloc: Global, lengths: &[u32], links: &[Link]) -> Result<List<List<u128>>, NoMemory>
    requires { length lengths.now ≡ length links.now }
    ensures { IfOk result (λ coefs. coefs ≡ coefficients_of lengths.now links.now) }
{
    let mut coefs = List::new(alloc);
    for e in 0..links.len() {
        coefs.push(link_coefs(alloc, lengths[e], links[e].modules.items())?)?;
    }
    Ok(coefs)
}

/// The line of a cut. It takes memory for a number of each module.
pub fn line_of_cut(alloc: Global, net: &Network, cut: &CutLine) -> Result<Inequality, NoMemory>
    requires { length cut.now.lengths ≡ length net.now.links }
    ensures { IfOk result (λ line. line ≡ line_of_cut net.now.links cut.now) }
{
    let links = net.links().items();
    let lengths = cut.lengths.items();
    Ok(Inequality {
        coefs: all_coefs(alloc, lengths, links)?,
        given: fixed_along(links, lengths),
        right: cut.right,
    })
}

fn number_in(numbers: &[u128], m: usize) -> u128
    ensures { result ≡ slice_index numbers.now m }
{
    if m < numbers.len() { numbers[m] } else { 0 }
}

/// The coefficient of a module; 0 where there is no such module. It takes constant time.
pub fn coefficient(line: &Inequality, e: usize, m: usize) -> u128
    ensures { result ≡ entry line.now.coefs e m }
{
    let coefs = line.coefs.items();
    if e < coefs.len() {
        number_in(coefs[e].items(), m)
    } else {
        0
    }
}
