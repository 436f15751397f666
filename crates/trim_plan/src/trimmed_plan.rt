ghost use Rattle.std.specs.Prelude.{◌≡◌, IfOk, OnOk, length};
ghost use Rattle.plan_terms.specs.Terms.{AreDemands, case, case_of, IsSurvivable};
ghost use Rattle.able_counts.specs.AbleTests.{AreRoutedCounts, IsTestOf};
ghost use Rattle.trim_plan.specs.Trimmed.{AreAtMost, IsRoutedPlan, IsTrimmedBy, IsTrimming};

use crate::blocks::settled_blocks;
use crate::spared_modules::spare_modules;
use able_counts::{AbleTest, Stop};
use module_choice::cost;
use net_core::{Copied, Counts, Instance, LinkId, List, Network, NoMemory, States, discard};
use plan_types::{Certificate, Plan};
use std::alloc::Global;

/// What keeps a module: why counts with one less of it aren't known to carry the demands.
#[derive(Drop)]
pub struct Block {
    pub link: LinkId,
    /// The place of the module among the link's modules.
    pub module: u32,
    pub why: Stop,
}

/// A plan from which no module can be spared, with a block for each module of positive count, in link and module order.
#[derive(Drop)]
pub struct Trimmed {
    pub plan: Plan,
    pub blocks: List<Block>,
}

/// Tells a test the cuts of a plan's certificate, so that it has to ask the states less often.
fn know_certificate(
    instance: &Instance,
    certificate: &Certificate,
    test: &mut AbleTest,
) -> Result<(), NoMemory>
    requires sound { IsTestOf (case_of instance.now) test.old }
    ensures sound { IsTestOf (case_of instance.now) test.new }
    ensures routings { test.new.routings ≡ test.old.routings }
{
    for line in certificate.lines.items() {
        test.know(instance, &line.cut)?;
    }
    Ok(())
}

/// A test that has a copy of a plan's routings, and knows the cuts of the plan's certificate.
fn test_of(alloc: Global, instance: &Instance, plan: &Plan) -> Result<AbleTest, NoMemory>
    requires demands { plan.now.demands ≡ instance.now.demands.now }
    requires routed { IsRoutedPlan (case_of instance.now) plan.now }
    ensures { IfOk result (AreRoutedCounts (case_of instance.now) plan.now.counts) }
{
    let mut test = AbleTest::new(alloc, instance, plan.routings.copy()?)?;
    match know_certificate(instance, &plan.certificate, &mut test) {
        Ok(()) => Ok(test),
        Err(error) => {
            discard(test);
            Err(error)
        }
    }
}

/// Takes modules off counts until none can be spared, and gives a block for each module that is left.
fn trim_counts(
    alloc: Global,
    instance: &Instance,
    test: &mut AbleTest,
    counts: &mut Counts,
) -> Result<List<Block>, NoMemory>
    requires survivable { IsSurvivable (case_of instance.now) }
    requires routed { AreRoutedCounts (case_of instance.now) counts.old test.old }
    ensures routed { OnOk result (AreRoutedCounts (case_of instance.now) counts.new test.new) }
    ensures fewer { OnOk result (AreAtMost counts.new counts.old) }
    ensures blocks { IfOk result (IsTrimmedBy (case_of instance.now) counts.new) }
{
    spare_modules(alloc, instance, test, counts)?;
    let blocks = settled_blocks(alloc, instance, test, counts)?;
    Ok(blocks)
}

/// Takes modules off a plan until none can be spared, and gives a block for each module that is left. Counts, cost and routings of the plan
/// change.
fn trim_plan(
    alloc: Global,
    net: &Network,
    states: &States,
    plan: &mut Plan,
) -> Result<List<Block>, NoMemory>
    requires belong { AreDemands (length net.now.nodes) plan.old.demands }
    requires survivable { IsSurvivable (case net.now states.now plan.old.demands) }
    requires routed { IsRoutedPlan (case net.now states.now plan.old.demands) plan.old }
    ensures { IfOk result (λ blocks. IsTrimming (case net.now states.now plan.old.demands) plan.old (record { plan = plan.new; blocks = blocks })) }
{
    let mut counts = plan.counts.copy()?;
    let instance = Instance {
        net,
        states,
        demands: &plan.demands,
    };
    let mut test = test_of(alloc, &instance, plan)?;
    let blocks = trim_counts(alloc, &instance, &mut test, &mut counts)?;
    let cost = cost(net, &counts);
    plan.counts = counts;
    plan.cost = cost;
    plan.routings = test.into_routings();
    Ok(blocks)
}

/// Takes modules off a plan until no single one is known to be spare, and gives a block for each kind of module that is left.
///
/// The given plan carries its demands, has the cost of its counts, and is in form and in lowest terms; its demands belong to the network,
/// and no state separates one. The new plan has other counts, cost and routings; none of its counts is greater, and it costs no more. The
/// dearest module is tried first. Where a number of some state's routing program is too wide, the module stays, and its block is the
/// evidence.
///
/// On the triangle with modules of 10.00 for 5.00, of which the link AC has two for a demand of 12.00 from A to C, none can be spared: AC's
/// block is the cut of the plan's certificate, with length 1 on each link.
///
/// It asks once for each module that is taken off, and twice for each kind that is left; most questions are answered by a known cut, such
/// as those of the plan's certificate. It takes the memory of the routings twice, and of the cuts that it finds. It fails only where memory
/// runs out.
pub fn trim(alloc: Global, net: &Network, states: &States, plan: Plan) -> Result<Trimmed, NoMemory>
    requires belong { AreDemands (length net.now.nodes) plan.demands }
    requires survivable { IsSurvivable (case net.now states.now plan.demands) }
    requires routed { IsRoutedPlan (case net.now states.now plan.demands) plan }
    ensures { IfOk result (IsTrimming (case net.now states.now plan.demands) plan) }
{
    let mut plan = plan;
    match trim_plan(alloc, net, states, &mut plan) {
        Ok(blocks) => Ok(Trimmed { plan, blocks }),
        Err(error) => {
            discard(plan);
            Err(error)
        }
    }
}
