ghost use Rattle.std.specs.Prelude.{◌≡◌, ◌++◌, OnOk, codes, flat_map};
ghost use Rattle.plan_terms.specs.Terms.{link_name};
ghost use Rattle.plan_view.specs.Terms.{failed_links, problem_case};
ghost use Rattle.view_state.specs.StateHeadings.{out_line, out_words, state_heading, state_title};

use net_core::{Bytes, Link, LinkId, Listed, NoMemory, Problem, StateId};
use plan_report::{link_name, state_name};

/// The links that a state fails.
fn failed_links(listed: &[Listed], state: u32) -> &[LinkId]
    ensures { result.now ≡ failed_links listed.now state }
{
    if state == 0 {
        return &[];
    }
    match listed.get(state as usize - 1) {
        Some(state) => state.links.items(),
        None => &[],
    }
}

/// Puts texts last.
fn put_texts(text: &mut Bytes, first: &[u8], second: &[u8], third: &[u8]) -> Result<(), NoMemory>
    ensures { OnOk result (text.new ≡ text.old ++ (first.now ++ second.now ++ third.now)) }
{
    text.append(first)?;
    text.append(second)?;
    text.append(third)
}

/// Puts the names of links last, each after a space.
fn put_names(text: &mut Bytes, links: &[Link], failed: &[LinkId]) -> Result<(), NoMemory>
    ensures { OnOk result (text.new ≡ text.old ++ flat_map (λ e. codes " " ++ link_name links.now e) failed.now) }
{
    for e in failed {
        text.append(b" ")?;
        text.append(link_name(links, *e))?;
    }
    Ok(())
}

/// Puts the names of links that fail last, each after a space; a dash where nothing fails.
fn put_out_words(text: &mut Bytes, links: &[Link], failed: &[LinkId]) -> Result<(), NoMemory>
    ensures { OnOk result (text.new ≡ text.old ++ out_words links.now failed.now) }
{
    match failed {
        [] => text.append(b" -"),
        [_, ..] => put_names(text, links, failed),
    }
}

/// Puts the end of the first line last, with the links that fail.
fn put_out_line(text: &mut Bytes, links: &[Link], failed: &[LinkId]) -> Result<(), NoMemory>
    ensures { OnOk result (text.new ≡ text.old ++ out_line links.now failed.now) }
{
    text.append(b"   links out:")?;
    put_out_words(text, links, failed)?;
    text.append(b"\n")
}

/// Puts the beginning of the first line last: the network's file and the state.
fn put_title(text: &mut Bytes, network: &[u8], name: &[u8]) -> Result<(), NoMemory>
    ensures { OnOk result (text.new ≡ text.old ++ state_title network.now name.now) }
{
    put_texts(text, network, b"   state ", name)
}

/// Puts the first line last.
pub(crate) fn put_heading(
    text: &mut Bytes,
    network: &[u8],
    problem: &Problem,
    state: u32,
) -> Result<(), NoMemory>
    ensures { OnOk result (text.new ≡ text.old ++ state_heading network.now (problem_case problem.now) state) }
{
    let listed = problem.states.listed().items();
    let links = problem.net.links().items();
    put_title(text, network, state_name(listed, StateId(state)))?;
    put_out_line(text, links, failed_links(listed, state))
}
