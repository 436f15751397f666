ghost use Rattle.std.specs.Prelude.{◌≡◌, [], IfOk, MatchOption, length};
ghost use Rattle.plan_terms.specs.Terms.{AreDemands, IsFirstSeparation, IsSurvivable};
ghost use Rattle.model_reader.specs.Failures.{SpellsFailures};
ghost use Rattle.failure_texts.{specs.Fates.{AreFates, with_states}, specs.FailureTexts.{AnswersFailures, able_states, failure_list_text}};

use crate::comments::put_comments;
use crate::fates::{Fate, fates_of};
use crate::states::put_states;
use failure_states::first_separated;
use net_core::{Bytes, Demands, Network, NoMemory, States};
use std::alloc::Global;

const HEADER: &[u8] = b"?planner failures; version: 1\n";

/// What is answered where the failures of a network are asked for.
pub enum FailureAnswer {
    /// No path joins the ends of a demand where nothing fails: the place of the first such demand that has a need.
    Apart(u32),
    /// The text of a failure list.
    Printed(Bytes),
}

/// The text of the fates of all links.
fn text_of_fates(
    alloc: Global,
    net: &Network,
    demands: &Demands,
    fates: &[Fate],
) -> Result<Bytes, NoMemory>
    requires { AreFates net.now demands.now (length net.now.links) fates.now }
    ensures text { IfOk result (λ text. text ≡ failure_list_text net.now.links demands.now fates.now) }
    ensures spelled { IfOk result (λ text. SpellsFailures net.now.links text (able_states net.now.links fates.now)) }
{
    let mut text = Bytes::new(alloc);
    text.append(HEADER)?;
    put_states(&mut text, net.links().items(), fates)?;
    put_comments(&mut text, net.links().items(), demands.items(), fates)?;
    Ok(text)
}

/// The first demand that is separated where nothing fails.
#[tactic(auto, using(crate::proofs::Alone::survivable_with, crate::proofs::Alone::separated_first))]
fn apart(alloc: Global, net: &Network, demands: &Demands) -> Result<Option<u32>, NoMemory>
    requires { AreDemands (length net.now.nodes) demands.now }
    ensures { let c = with_states net.now demands.now [] in
        IfOk result (λ r. MatchOption r (IsSurvivable c) (λ k. IsFirstSeparation c 0 k)) }
{
    let states = States::only_none(alloc);
    match first_separated(alloc, net, &states, demands)? {
        None => Ok(None),
        Some(found) => Ok(Some(found.demand)),
    }
}

/// The failure list of a network: the failure of each link that alone separates no demand, under the link's name and in the order of the
/// links, and below them a comment on each other link, with the first demand that its failure separates. `read_failures` reads these
/// failures from it, and the network survives them all. Where a demand is separated without any failure, no list helps, and the demand is
/// answered.
///
/// It takes for each link time in the square of the nodes, in the demands and in the links.
///
/// ```text
/// ?planner failures; version: 1
/// FAILURES ( AB ( AB )
/// BC ( BC )
/// )
/// # CD is left out: without it demand D2 can't be carried
/// ```
pub fn failure_list(
    alloc: Global,
    net: &Network,
    demands: &Demands,
) -> Result<FailureAnswer, NoMemory>
    requires { AreDemands (length net.now.nodes) demands.now }
    ensures { IfOk result (AnswersFailures net.now demands.now) }
{
    if let Some(k) = apart(alloc, net, demands)? {
        return Ok(FailureAnswer::Apart(k));
    }
    let fates = fates_of(alloc, net, demands)?;
    let text = text_of_fates(alloc, net, demands, fates.items())?;
    Ok(FailureAnswer::Printed(text))
}
