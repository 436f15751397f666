ghost use Rattle.std.specs.Prelude.{◌≡◌, ◌+◌, ◌<◌, [], length, IsTrue, IfErr, IfOk, Ok};
ghost use Rattle.text_kit.specs.Terms.{of_length, AnswersAs, ReadsAllAs, ReadsAs, TakesElement, IsNotTooEarly, Parenthesis, list_at, no_fault};
ghost use Rattle.plan_terms.specs.Terms.{AreDemands};
ghost use Rattle.snd_tokens.specs.Terms.{left, size};
ghost use Rattle.plan_report.specs.Terms.{known_of};
ghost use Rattle.report_words.specs.Terms.{known_in};
ghost use Rattle.report_parts.specs.ReadingParts.{all_counts_at};
ghost use Rattle.flow_file.{specs.declared.flow.FlowFile.{FlowFile as File}, specs.FlowFiles.{IsFlowFile, SpellsFlows}, specs.FlowKinds.told_at, specs.FlowReading.{flow_sections_at, flows_at, flows_of, link_flow_at, state_flows_at, states_flows_at}};

use crate::fault::{FlowsKind, FlowsRefusal};
use crate::flow::{FlowFile, LinkFlow};
use crate::known::KnownDemands;
use crate::told::told;
use crate::words::{flow_demand, flow_from, flow_link, flow_num, section_word, state_word};
use net_core::{Counts, Demands, Link, List, Network, States};
use path_split::Arc;
use report_parts::modules::all_counts;
use report_words::context::Context;
use snd_tokens::Cursor;
use std::alloc::Global;
use text_kit::refusal::bad;
use text_kit::steps::{closes, end, open, text_after_header};

const HEADER: &[u8] = b"?planner flows; version: 1";

const MODULES: &[u8] = b"MODULES";

const FLOWS: &[u8] = b"FLOWS";

/// Takes a flow after these ones.
#[tactic(auto, unfolding(crate::specs::FlowReading::link_flow_at))]
fn link_flow(
    context: &Context,
    demands: &KnownDemands,
    sofar: &[LinkFlow],
    text: &mut Cursor,
) -> Result<LinkFlow, FlowsRefusal>
    ensures { ReadsAs (λ f. f) result (left text.new) (link_flow_at (known_in context.now) demands.now.list.now sofar.now (left text.old)) }
{
    let demand = flow_demand(demands, sofar, text)?;
    let link = flow_link(context, text)?;
    let from = flow_from(context, link, text)?;
    let num = flow_num(context.net.places(), text)?;
    Ok(LinkFlow {
        demand,
        arc: Arc { link, from, num },
    })
}

/// Takes one flow more of a state, and says whether there was one.
fn take_link_flow(
    context: &Context,
    demands: &KnownDemands,
    all: &mut List<LinkFlow>,
    text: &mut Cursor,
) -> Result<bool, FlowsRefusal>
    ensures turn { TakesElement result
        (list_at Parenthesis no_fault (link_flow_at (known_in context.now) demands.now.list.now) all.old (left text.old))
        (list_at Parenthesis no_fault (link_flow_at (known_in context.now) demands.now.list.now) all.new (left text.new))
        (Ok (all.new, left text.new)) }
    ensures shorter { IfOk result (λ more. IsTrue more → size (left text.new) < size (left text.old)) }
{
    if let Some(_) = closes(text) {
        return Ok(false);
    }
    let flow = link_flow(context, demands, all.items(), text)?;
    all.push(flow)?;
    Ok(true)
}

/// Takes the flows of a state, up to the closing parenthesis.
fn link_flows(
    alloc: Global,
    context: &Context,
    demands: &KnownDemands,
    text: &mut Cursor,
) -> Result<List<LinkFlow>, FlowsRefusal>
    ensures { ReadsAs (λ l. l) result (left text.new)
        (list_at Parenthesis no_fault (link_flow_at (known_in context.now) demands.now.list.now) [] (left text.old)) }
{
    let mut all = List::new(alloc);
    while take_link_flow(context, demands, &mut all, text)? {}
    Ok(all)
}

/// Takes the name and the flows of a state, given how many states came before.
#[tactic(auto, unfolding(crate::specs::FlowReading::state_flows_at))]
fn state_flows(
    alloc: Global,
    context: &Context,
    demands: &KnownDemands,
    sofar: &[List<LinkFlow>],
    text: &mut Cursor,
) -> Result<List<LinkFlow>, FlowsRefusal>
    ensures { ReadsAs (λ l. l) result (left text.new) (state_flows_at (known_in context.now) demands.now.list.now sofar.now (left text.old)) }
{
    state_word(context.states, sofar.len(), text)?;
    open(FlowsKind::Token, FlowsKind::Ended, text)?;
    link_flows(alloc, context, demands, text)
}

/// What is wrong with the flows of this number of states.
fn states_fault(states: &States, all: &[List<LinkFlow>]) -> Option<FlowsKind>
    ensures { result ≡ of_length (length states.now.listed + 1) FlowsKind.Limit all.now }
{
    if all.len() == states.count() as usize {
        return None;
    }
    Some(FlowsKind::Limit)
}

/// Takes the flows of one state more, and says whether there was one.
fn take_state_flows(
    alloc: Global,
    context: &Context,
    demands: &KnownDemands,
    all: &mut List<List<LinkFlow>>,
    text: &mut Cursor,
) -> Result<bool, FlowsRefusal>
    ensures turn { TakesElement result
        (states_flows_at (known_in context.now) demands.now.list.now all.old (left text.old))
        (states_flows_at (known_in context.now) demands.now.list.now all.new (left text.new))
        (Ok (all.new, left text.new)) }
    ensures shorter { IfOk result (λ more. IsTrue more → size (left text.new) < size (left text.old)) }
{
    if let Some(at) = closes(text) {
        if let Some(kind) = states_fault(context.states, all.items()) {
            return Err(bad(at, kind));
        }
        return Ok(false);
    }
    let flows = state_flows(alloc, context, demands, all.items(), text)?;
    all.push(flows)?;
    Ok(true)
}

/// Takes the flows of all states, up to the closing parenthesis.
fn all_flows(
    alloc: Global,
    context: &Context,
    demands: &KnownDemands,
    text: &mut Cursor,
) -> Result<List<List<LinkFlow>>, FlowsRefusal>
    ensures { ReadsAs (λ l. l) result (left text.new) (states_flows_at (known_in context.now) demands.now.list.now [] (left text.old)) }
{
    let mut all = List::new(alloc);
    while take_state_flows(alloc, context, demands, &mut all, text)? {}
    Ok(all)
}

/// Takes the counts of all links.
fn counts(alloc: Global, links: &[Link], text: &mut Cursor) -> Result<Counts, FlowsRefusal>
    ensures { ReadsAs (λ l. l) result (left text.new) (told_at (all_counts_at links.now) (left text.old)) }
{
    told(all_counts(alloc, links, text))
}

/// Takes both sections.
#[tactic(auto, unfolding(crate::specs::FlowReading::flow_sections_at))]
fn flow_sections(
    alloc: Global,
    context: &Context,
    demands: &KnownDemands,
    text: &mut Cursor,
) -> Result<FlowFile, FlowsRefusal>
    ensures { ReadsAs (λ f. f) result (left text.new) (flow_sections_at (known_in context.now) demands.now.list.now (left text.old)) }
{
    section_word(MODULES, text)?;
    open(FlowsKind::Section, FlowsKind::Ended, text)?;
    let counts = counts(alloc, context.net.links().items(), text)?;
    section_word(FLOWS, text)?;
    open(FlowsKind::Section, FlowsKind::Ended, text)?;
    let flows = all_flows(alloc, context, demands, text)?;
    Ok(FlowFile { counts, flows })
}

/// Takes both sections, after which nothing is left.
fn flows(
    alloc: Global,
    context: &Context,
    demands: &KnownDemands,
    text: &mut Cursor,
) -> Result<FlowFile, FlowsRefusal>
    ensures { ReadsAs (λ f. f) result (left text.new) (flows_at (known_in context.now) demands.now.list.now (left text.old)) }
{
    let file = flow_sections(alloc, context, demands, text)?;
    end(FlowsKind::Section, text)?;
    Ok(file)
}

/// The whole file.
fn file(
    alloc: Global,
    context: &Context,
    demands: &KnownDemands,
    bytes: &[u8],
) -> Result<FlowFile, FlowsRefusal>
    ensures { ReadsAllAs (λ f. f) result (flows_of (known_in context.now) demands.now.list.now bytes.now) }
{
    let mut text = text_after_header(FlowsKind::Header, bytes, HEADER)?;
    flows(alloc, context, demands, &mut text)
}

/// The counts and flows that a file spells, for a network, its states and its demands. Amounts are in units of the network.
///
/// It takes time in proportion to the bytes, and memory for the counts, the flows, and the places of the names.
///
/// ```text
/// // the triangle without failures: MODULES ( AB ( 0 ) BC ( 0 ) AC ( 2 ) ) and FLOWS ( none ( D1 AC A 12 ) ) after the header
/// let file = read_flows(alloc, &net, &states, &demands, bytes)?;
/// // counts 0, 0 and 2; in state 0 one flow, of demand 0 on link 2 from node 0, of 12,000 units
/// ```
pub fn read_flows(
    alloc: Global,
    net: &Network,
    states: &States,
    demands: &Demands,
    bytes: &[u8],
) -> Result<FlowFile, FlowsRefusal>
    requires { AreDemands (length net.now.nodes) demands.now }
    // What is read is spelled.
    ensures found { IfOk result (λ f. SpellsFlows (known_of net.now states.now) demands.now bytes.now f) }
    // It is in form.
    ensures form { IfOk result (λ f. IsFlowFile (known_of net.now states.now) demands.now f) }
    // What is spelled is read, unless memory runs out.
    ensures only { (f : File) → SpellsFlows (known_of net.now states.now) demands.now bytes.now f → AnswersAs (λ x. x) result f }
    // A fault is the first one that reading from left to right meets.
    ensures exact { ReadsAllAs (λ f. f) result (flows_of (known_of net.now states.now) demands.now bytes.now) }
    // It isn't too early: no bytes that agree past it are spelled right.
    ensures not_early { IfErr result (IsNotTooEarly (SpellsFlows (known_of net.now states.now) demands.now) bytes.now) }
{
    let context = Context::new(alloc, net, states)?;
    let known = KnownDemands::new(alloc, demands.items())?;
    file(alloc, &context, &known, bytes)
}
