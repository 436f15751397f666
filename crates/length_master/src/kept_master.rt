ghost use Rattle.std.specs.Prelude.{◌≡◌, ◌≤◌, ◌<◌, ◌^◌, All, AllPairs, IfOk, IfSome, length};
ghost use Rattle.metric_cut.specs.Bounded.{HaveBound};
ghost use Rattle.master_law.specs.Terms.{AreUnitPairs, IsSameCut};
ghost use Rattle.master_bound.specs.Answers.{IsBestOf, IsMasterAnswer};
ghost use Rattle.length_master.specs.WideShares.{AreLeastCaps};

use crate::amounts::{Numbers, amounts_of, fill_slacks, units_of};
use crate::basis::{Basis, set_values, settle, slack_basis};
use crate::guess::{Guess, tested};
use crate::line::{Line, bounds_of, lines_of, multiple_of};
use crate::row::KeptRow;
use crate::wide_share::{least_caps, price_row};
use master_bound::{Best, MasterFault, best_at, master, unit_pairs};
use module_prices::UnitPair;
use net_core::{Caps, CutLine, List, Network, NoMemory};
use std::alloc::Global;

/// The program over lengths, in which turns are taken.
#[derive(Drop)]
struct Program {
    /// A common multiple of the unit pairs' capacities.
    all: u128,
    bounds: List<i128>,
    lines: List<Line>,
}

/// What is kept of the master programs of a planning: the basis that the last one ended with, where no column gained any more.
#[derive(Drop)]
pub struct KeptMaster {
    basis: Option<Basis>,
}

/// The program of these cuts, where its bounds aren't too wide.
fn program_of(
    alloc: Global,
    net: &Network,
    cuts: &[CutLine],
    pairs: &[UnitPair],
) -> Result<Option<Program>, NoMemory>
    requires counts { All (λ cut. length cut.lengths ≡ length net.now.links) cuts.now }
    requires right { All (λ cut. cut.right < 2 ^ 84) cuts.now }
{
    let Some(all) = multiple_of(pairs) else {
        return Ok(None);
    };
    Ok(Some(Program {
        all,
        bounds: bounds_of(alloc, pairs, all)?,
        lines: lines_of(alloc, net, pairs, cuts)?,
    }))
}

/// What is taken of the columns of a basis, where no number is too wide.
fn values_of(
    alloc: Global,
    pairs: &[UnitPair],
    program: &Program,
    rows: &[KeptRow],
) -> Result<Option<Numbers>, NoMemory> {
    let Some(mut values) = amounts_of(alloc, rows, program.all)? else {
        return Ok(None);
    };
    fill_slacks(rows, program.lines.items(), pairs, &mut values);
    Ok(Some(values))
}

/// What a basis ends with after turns, where no number is too wide.
fn guess_of(
    alloc: Global,
    pairs: &[UnitPair],
    program: &Program,
    basis: &mut Basis,
) -> Result<Option<Guess>, NoMemory> {
    let lines = program.lines.items();
    set_values(basis.rows.items_mut(), program.bounds.items());
    basis.settled = settle(basis, lines)?;
    if !basis.settled {
        return Ok(None);
    }
    let Some(values) = values_of(alloc, pairs, program, basis.rows.items())? else {
        return Ok(None);
    };
    let Some(units) = units_of(alloc, &basis.prices, pairs)? else {
        return Ok(None);
    };
    Ok(Some(Guess { values, units }))
}

/// The best certificate that turns from a basis lead to, if the basis that they end with passes the test.
fn best_from(
    alloc: Global,
    net: &Network,
    cuts: &List<CutLine>,
    pairs: &List<UnitPair>,
    program: &Program,
    basis: &mut Basis,
) -> Result<Option<Best>, NoMemory>
    requires few { length cuts.now ≤ 8192 }
    requires lengths { All (λ cut. HaveBound net.now.links cut.lengths) cuts.now }
    requires right { All (λ cut. cut.right < 2 ^ 84) cuts.now }
    requires different { AllPairs (λ a b. IsSameCut a b → ⊥) cuts.now }
    requires units { AreUnitPairs net.now.links pairs.now }
    requires costs { All (λ p. p.cost < 2 ^ 40) pairs.now }
    ensures { IfOk result (λ found. IfSome found (IsBestOf net.now.links cuts.now)) }
{
    let Some(guess) = guess_of(alloc, pairs.items(), program, basis)? else {
        return Ok(None);
    };
    match tested(alloc, net, cuts, pairs, basis.rows.items(), guess)? {
        Some(optimum) => best_at(alloc, net, cuts, pairs, &optimum),
        None => Ok(None),
    }
}

impl KeptMaster {
    /// Nothing is kept yet. It asks for no memory.
    pub fn new() -> KeptMaster {
        KeptMaster { basis: None }
    }

    /// The best certificate by turns from a basis. It is kept where no column gains any more, though its certificate may be too wide.
    fn turned(
        &mut self,
        alloc: Global,
        net: &Network,
        cuts: &List<CutLine>,
        pairs: &List<UnitPair>,
        program: &Program,
        basis: Basis,
    ) -> Result<Option<Best>, NoMemory>
        requires few { length cuts.now ≤ 8192 }
        requires lengths { All (λ cut. HaveBound net.now.links cut.lengths) cuts.now }
        requires right { All (λ cut. cut.right < 2 ^ 84) cuts.now }
        requires different { AllPairs (λ a b. IsSameCut a b → ⊥) cuts.now }
        requires units { AreUnitPairs net.now.links pairs.now }
        requires costs { All (λ p. p.cost < 2 ^ 40) pairs.now }
        ensures { IfOk result (λ found. IfSome found (IsBestOf net.now.links cuts.now)) }
    {
        let mut basis = basis;
        let found = best_from(alloc, net, cuts, pairs, program, &mut basis)?;
        if basis.settled {
            self.basis = Some(basis);
        }
        Ok(found)
    }

    /// The best certificate over lengths, from the basis that is kept or else from the slacks.
    fn found(
        &mut self,
        alloc: Global,
        net: &Network,
        cuts: &List<CutLine>,
        pairs: &List<UnitPair>,
    ) -> Result<Option<Best>, NoMemory>
        requires few { length cuts.now ≤ 8192 }
        requires lengths { All (λ cut. HaveBound net.now.links cut.lengths) cuts.now }
        requires right { All (λ cut. cut.right < 2 ^ 84) cuts.now }
        requires different { AllPairs (λ a b. IsSameCut a b → ⊥) cuts.now }
        requires units { AreUnitPairs net.now.links pairs.now }
        requires costs { All (λ p. p.cost < 2 ^ 40) pairs.now }
        ensures { IfOk result (λ found. IfSome found (IsBestOf net.now.links cuts.now)) }
    {
        let Some(program) = program_of(alloc, net, cuts.items(), pairs.items())? else {
            return Ok(None);
        };
        if let Some(basis) = self.basis.take() {
            let found = self.turned(alloc, net, cuts, pairs, &program, basis)?;
            if found.is_some() {
                return Ok(found);
            }
        }
        let basis = slack_basis(alloc, net.links().len())?;
        self.turned(alloc, net, cuts, pairs, &program, basis)
    }

    /// The best certificate of cuts and a least share of theirs, or why there is none: as `master` answers, whatever is kept. Where several
    /// best bases cost the same, multipliers and share may be others than those of `master`.
    ///
    /// It begins with the basis that the last call ended with, which stays feasible where cuts are added to the list. The basis that it
    /// ends with is tested; where it fails, a number is too wide or 20,000 turns don't suffice, `master` answers.
    ///
    /// It takes time that grows with the turns, each in the square of the count of links and in the lengths of the cuts that aren't 0,
    /// and once in the cube of the count of links, and memory in the square of the count of links and in the lengths of the cuts.
    pub fn best(
        &mut self,
        alloc: Global,
        net: &Network,
        cuts: &List<CutLine>,
    ) -> Result<Best, MasterFault>
        requires few { length cuts.now ≤ 8192 }
        requires lengths { All (λ cut. HaveBound net.now.links cut.lengths) cuts.now }
        requires right { All (λ cut. cut.right < 2 ^ 84) cuts.now }
        requires different { AllPairs (λ a b. IsSameCut a b → ⊥) cuts.now }
        ensures { IsMasterAnswer net.now.links cuts.now result }
    {
        let pairs = unit_pairs(alloc, net)?;
        match self.found(alloc, net, cuts, &pairs)? {
            Some(best) => Ok(best),
            None => master(alloc, net, cuts),
        }
    }

    /// The capacities of a least share of the cuts, where the basis that is kept tells them: for cuts whose share has units that are too wide,
    /// though its capacities aren't. `None` where nothing is kept, since no turns of `best` came to an end where no column gains; where a
    /// number is too wide for the test, as a common multiple of the unit pairs' capacities, the certificate's common denominator or that of
    /// the prices of 2^62 or more; and where the basis doesn't pass the test, as one that other cuts have left.
    ///
    /// It takes time in the cube of the count of links and in the lengths of the cuts, and memory in the square of the count of links and
    /// in the lengths of the cuts.
    pub fn least_capacities(
        &self,
        alloc: Global,
        net: &Network,
        cuts: &List<CutLine>,
    ) -> Result<Option<Caps>, NoMemory>
        requires few { length cuts.now ≤ 8192 }
        requires lengths { All (λ cut. HaveBound net.now.links cut.lengths) cuts.now }
        requires right { All (λ cut. cut.right < 2 ^ 84) cuts.now }
        ensures { IfOk result (λ found. IfSome found (AreLeastCaps net.now.links cuts.now)) }
    {
        let Some(basis) = &self.basis else {
            return Ok(None);
        };
        let pairs = unit_pairs(alloc, net)?;
        let Some(program) = program_of(alloc, net, cuts.items(), pairs.items())? else {
            return Ok(None);
        };
        let Some(values) = values_of(alloc, pairs.items(), &program, basis.rows.items())? else {
            return Ok(None);
        };
        let Some(prices) = price_row(alloc, &basis.prices)? else {
            return Ok(None);
        };
        least_caps(
            alloc,
            net,
            cuts,
            &pairs,
            basis.rows.items(),
            &values,
            &prices,
        )
    }
}
