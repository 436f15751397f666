ghost use Rattle.std.{specs.Prelude.{◌≡◌, ◌≤◌, ◌+◌, ◌++◌, IfOk, OnOk, map}, specs.List.range_with_len};
ghost use Rattle.sample_net.{specs.Draws.nth_number, specs.Samples.{chord_count, chord_ends, pairs_of, ring_ends, sample_ends, sample_pairs}};

use crate::draws::Draws;
use net_core::{List, NoMemory};
use std::alloc::Global;

/// Two nodes, by their places.
pub(crate) type Ends = (u32, u32);

/// The ends of the ring's links.
fn ring(alloc: Global, n: u32) -> Result<List<Ends>, NoMemory>
    requires { (4 ≤ n) × (n ≤ 40) }
    ensures { IfOk result (λ ends. ends ≡ map (ring_ends n) (range_with_len 0 n)) }
{
    let mut ends = List::new(alloc);
    for i in 0..n {
        ends.push((i, (i + 1) % n))?;
    }
    Ok(ends)
}

/// The ends of the chords, each with one draw. Two chords may join the same two nodes.
fn chords(alloc: Global, n: u32, draws: &mut Draws) -> Result<List<Ends>, NoMemory>
    requires { (4 ≤ n) × (n ≤ 40) }
    ensures ends { IfOk result (λ ends. ends ≡ map (chord_ends draws.old.number n) (range_with_len 0 (chord_count n))) }
    ensures draws { OnOk result (draws.new.number ≡ nth_number draws.old.number (chord_count n)) }
{
    let mut ends = List::new(alloc);
    for c in 0..(n + 1) / 2 {
        ends.push((2 * c, (2 * c + 2 + draws.below(n - 3)) % n))?;
    }
    Ok(ends)
}

/// The ends of all links: the ring, then the chords.
pub(crate) fn link_ends(alloc: Global, n: u32, draws: &mut Draws) -> Result<List<Ends>, NoMemory>
    requires { (4 ≤ n) × (n ≤ 40) }
    ensures ends { IfOk result (λ ends. ends ≡ sample_ends draws.old.number n) }
    ensures draws { OnOk result (draws.new.number ≡ nth_number draws.old.number (chord_count n)) }
{
    let mut ends = ring(alloc, n)?;
    ends.append(chords(alloc, n, draws)?.items())?;
    Ok(ends)
}

/// Puts the pairs of a node with each later one last.
fn push_pairs(pairs: &mut List<Ends>, n: u32, i: u32) -> Result<(), NoMemory>
    requires { (i + 1 ≤ n) × (n ≤ 40) }
    ensures { OnOk result (pairs.new ≡ pairs.old ++ pairs_of n i) }
{
    for j in i + 1..n {
        pairs.push((i, j))?;
    }
    Ok(())
}

/// All pairs of nodes, in order of the first and then of the second.
pub(crate) fn all_pairs(alloc: Global, n: u32) -> Result<List<Ends>, NoMemory>
    requires { n ≤ 40 }
    ensures { IfOk result (λ pairs. pairs ≡ sample_pairs n) }
{
    let mut pairs = List::new(alloc);
    for i in 0..n {
        push_pairs(&mut pairs, n, i)?;
    }
    Ok(pairs)
}
