ghost use Rattle.std.specs.Prelude.{◌≡◌, ◌==◌, ◌||◌, slice_get};
ghost use Rattle.snd_tokens.specs.Terms.{left};
ghost use Rattle.plan_report.specs.Terms.{state_name};
ghost use Rattle.text_kit.specs.Terms.{ReadsAs, word_at};
ghost use Rattle.report_words.specs.Terms.{link_at, this_name_at};
ghost use Rattle.flow_file.{specs.FlowKinds.told_at, specs.FlowReading.{end_of, flow_amount, flow_demand_at, section_word_at}};

use crate::fault::{FlowsKind, FlowsRefusal};
use crate::flow::LinkFlow;
use crate::known::KnownDemands;
use crate::told::{flows_kind, told};
use net_core::limits::MOST_FLOWS;
use net_core::{Link, LinkId, NodeId, Places, States};
use report_words::context::Context;
use report_words::words::this_name;
use snd_tokens::{Cursor, amount};
use text_kit::steps::{expect, placed, word};

const NONE: &[u8] = b"none";

/// Takes the word of a section.
pub(crate) fn section_word(wanted: &[u8], text: &mut Cursor) -> Result<(), FlowsRefusal>
    ensures { ReadsAs (λ _. tt) result (left text.new) (section_word_at wanted.now (left text.old)) }
{
    expect(FlowsKind::Section, FlowsKind::Ended, wanted, text)
}

/// The name of a state, or no bytes where there is no such state.
fn name_of_state(states: &States, state: usize) -> &[u8]
    ensures { result.now ≡ state_name states.now.listed state }
{
    if state == 0 {
        return NONE;
    }
    match states.listed().items().get(state - 1) {
        Some(listed) => listed.name.bytes(),
        None => b"",
    }
}

/// Takes the name of a state.
pub(crate) fn state_word(
    states: &States,
    state: usize,
    text: &mut Cursor,
) -> Result<(), FlowsRefusal>
    ensures { ReadsAs (λ _. tt) result (left text.new) (told_at (this_name_at (state_name states.now.listed state)) (left text.old)) }
{
    told(this_name(name_of_state(states, state), text))
}

/// Takes the demand of a flow after these ones.
pub(crate) fn flow_demand(
    demands: &KnownDemands,
    sofar: &[LinkFlow],
    text: &mut Cursor,
) -> Result<u32, FlowsRefusal>
    ensures { ReadsAs (λ k. k) result (left text.new) (told_at (flow_demand_at demands.now.list.now sofar.now) (left text.old)) }
{
    told(demands.next(sofar.len() < MOST_FLOWS, text))
}

/// Takes the link of a flow.
pub(crate) fn flow_link(context: &Context, text: &mut Cursor) -> Result<LinkId, FlowsRefusal>
    ensures { ReadsAs (λ e. e) result (left text.new) (told_at (link_at context.now.net.now.links) (left text.old)) }
{
    told(context.link(text))
}

/// Whether a node is an end of a link.
fn is_end(link: &Link, node: NodeId) -> bool
    ensures { result ≡ (link.now.a.0 == node.0) || (link.now.b.0 == node.0) }
{
    link.a.0 == node.0 || link.b.0 == node.0
}

/// The end of a link that a word names.
fn end_of(context: &Context, link: LinkId, word: &[u8]) -> Result<NodeId, FlowsKind>
    ensures { result ≡ end_of context.now.net.now.nodes (slice_get context.now.net.now.links link.0) word.now }
{
    match context.node_of(word) {
        Ok(node) => match context.net.links().items().get(link.0 as usize) {
            Some(l) => {
                if is_end(l, node) {
                    return Ok(node);
                }
                Err(FlowsKind::UnknownName)
            }
            None => Err(FlowsKind::UnknownName),
        },
        Err(kind) => Err(flows_kind(kind)),
    }
}

/// Takes the node at which a flow enters its link.
pub(crate) fn flow_from(
    context: &Context,
    link: LinkId,
    text: &mut Cursor,
) -> Result<NodeId, FlowsRefusal>
    ensures { let net = context.now.net.now in
        ReadsAs (λ n. n) result (left text.new) (word_at FlowsKind.Token FlowsKind.Ended (end_of net.nodes (slice_get net.links link.0)) (left text.old)) }
{
    let (at, word) = word(FlowsKind::Token, FlowsKind::Ended, text)?;
    placed(at, end_of(context, link, word))
}

/// The amount of a flow that a word writes.
fn flow_amount(places: Places, word: &[u8]) -> Result<u64, FlowsKind>
    ensures { result ≡ flow_amount places word.now }
{
    match amount(word, places) {
        Ok(num) => {
            if num == 0 {
                return Err(FlowsKind::ZeroFlow);
            }
            Ok(num)
        }
        Err(fault) => Err(FlowsKind::Number(fault)),
    }
}

/// Takes the amount of a flow.
pub(crate) fn flow_num(places: Places, text: &mut Cursor) -> Result<u64, FlowsRefusal>
    ensures { ReadsAs (λ n. n) result (left text.new) (word_at FlowsKind.Token FlowsKind.Ended (flow_amount places) (left text.old)) }
{
    let (at, word) = word(FlowsKind::Token, FlowsKind::Ended, text)?;
    placed(at, flow_amount(places, word))
}
