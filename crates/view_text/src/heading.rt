ghost use Rattle.std.{specs.Prelude.{◌≡◌, ◌++◌, [], OnOk, codes, cond, length, nat_eq}, specs.List.list_all};
ghost use Rattle.plan_terms.specs.Terms.{case, total_need};
ghost use Rattle.view_cells.specs.Terms.{counted};
ghost use Rattle.view_text.specs.Headings.{are_all_survived, demands_text, failures_text, heading_text, is_planned, size_text, told_demands};

use net_core::{Bytes, Demand, Network, NoMemory, Places, Problem};
use plan_types::Outcome;
use text_kit::write::put_money_word;
use view_cells::cells::put_counted;

/// What the demands need together, in units of the network.
fn total_need(demands: &[Demand]) -> u128
    ensures { result ≡ total_need demands.now }
{
    let mut total = 0;
    for i in 0..demands.len() {
        total += demands[i].need as u128;
    }
    total
}

/// Puts how large a network is last.
fn put_size(text: &mut Bytes, net: &Network) -> Result<(), NoMemory>
    ensures { OnOk result (text.new ≡ text.old ++ size_text (length net.now.nodes) (length net.now.links)) }
{
    put_counted(text, net.nodes().len(), b"node", b"nodes")?;
    text.append(b", ")?;
    put_counted(text, net.links().len(), b"link", b"links")
}

/// Puts how many demands there are last, and what they need together.
fn put_demands(text: &mut Bytes, places: Places, demands: &[Demand]) -> Result<(), NoMemory>
    ensures { OnOk result (text.new ≡ text.old ++ demands_text places demands.now) }
{
    text.append(b", ")?;
    put_counted(text, demands.len(), b"demand", b"demands")?;
    text.append(b" of ")?;
    put_money_word(text, places, total_need(demands))
}

/// Puts a number of failures last, and whether all are survived.
fn put_count(text: &mut Bytes, count: usize, survived: bool) -> Result<(), NoMemory>
    ensures { OnOk result (text.new ≡ text.old ++ (counted count (codes "failure") (codes "failures") ++ cond survived (codes ", all survived") [])) }
{
    put_counted(text, count, b"failure", b"failures")?;
    if survived {
        text.append(b", all survived")
    } else {
        Ok(())
    }
}

/// Puts a number of failures last, and whether all are survived; or that there are none.
fn put_some_failures(text: &mut Bytes, count: usize, survived: bool) -> Result<(), NoMemory>
    ensures { OnOk result (text.new ≡ text.old ++ cond (nat_eq count 0) (codes "no failures")
        (counted count (codes "failure") (codes "failures") ++ cond survived (codes ", all survived") [])) }
{
    if count == 0 {
        text.append(b"no failures")
    } else {
        put_count(text, count, survived)
    }
}

/// Puts how many failures there are last, and whether all are survived.
fn put_failures(text: &mut Bytes, count: usize, survived: bool) -> Result<(), NoMemory>
    ensures { OnOk result (text.new ≡ text.old ++ failures_text count survived) }
{
    text.append(b"; ")?;
    put_some_failures(text, count, survived)
}

/// Whether the outcome is a plan.
fn is_planned(outcome: &Outcome) -> bool
    ensures { result ≡ is_planned outcome.now }
{
    match outcome {
        Outcome::Planned { .. } => true,
        Outcome::Unsurvivable { .. } => false,
    }
}

/// Whether each outcome is a plan.
fn are_planned(outcomes: &[Outcome]) -> bool
    ensures { result ≡ list_all is_planned outcomes.now }
{
    outcomes.iter().all(|outcome| is_planned(outcome))
}

/// Whether all failures are survived: there is a plan, and no outcome without one.
fn are_all_survived(outcomes: &[Outcome]) -> bool
    ensures { result ≡ are_all_survived outcomes.now }
{
    outcomes.len() > 0 && are_planned(outcomes)
}

/// The demands of which the first line tells: those of a single plan, and else those of the network's file.
fn told_demands<'a>(demands: &'a [Demand], outcomes: &'a [Outcome]) -> &'a [Demand]
    ensures { result.now ≡ told_demands demands.now outcomes.now }
{
    match outcomes {
        [Outcome::Planned { plan, .. }] => plan.demands.items(),
        _ => demands,
    }
}

/// Puts the first line last: the network's file, its size, the demands, and the failures.
pub(crate) fn put_heading(
    text: &mut Bytes,
    network: &[u8],
    problem: &Problem,
    outcomes: &[Outcome],
) -> Result<(), NoMemory>
    ensures { OnOk result (text.new ≡ text.old ++ heading_text network.now (case problem.now.net problem.now.states problem.now.demands) outcomes.now) }
{
    text.append(network)?;
    text.append(b"   ")?;
    put_size(text, &problem.net)?;
    put_demands(
        text,
        problem.net.places(),
        told_demands(problem.demands.items(), outcomes),
    )?;
    put_failures(
        text,
        problem.states.listed().len(),
        are_all_survived(outcomes),
    )?;
    text.append(b"\n\n")
}
