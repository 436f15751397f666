ghost use Rattle.std.specs.Prelude.{◌<◌, ◌≤◌, ◌∷◌, [], length, OnOk};
ghost use Rattle.text_kit.specs.Terms.{Item, Verbatim, AddsItems};
ghost use Rattle.plan_terms.specs.Terms.{link_name};
ghost use Rattle.plan_report.specs.Names.{demand_name, state_name};

use net_core::{Bytes, Demand, Link, LinkId, Listed, Name, NoMemory, Places};
use text_kit::puts::{put_keyword, put_name};

/// The nodes, the links and the listed states that a report names, and the places of its amounts and
/// money.
#[derive(Clone, Copy)]
pub(crate) struct Names<'a> {
    pub nodes: &'a [Name],
    pub links: &'a [Link],
    pub listed: &'a [Listed],
    pub places: Places,
}

/// Puts a link's name last.
pub(crate) fn put_link(text: &mut Bytes, links: &[Link], link: LinkId) -> Result<(), NoMemory>
    requires { link.0 < length links.now }
    ensures { OnOk result (AddsItems text.old (Verbatim (link_name links.now link) ∷ []) text.new) }
{
    put_name(text, &links[link.0 as usize].name)
}

/// Puts a demand's name last.
pub(crate) fn put_demand_name(
    text: &mut Bytes,
    demands: &[Demand],
    demand: u32,
) -> Result<(), NoMemory>
    requires { demand < length demands.now }
    ensures { OnOk result (AddsItems text.old (Verbatim (demand_name demands.now demand) ∷ []) text.new) }
{
    put_name(text, &demands[demand as usize].name)
}

/// Puts a state's name last.
pub(crate) fn put_state_name(
    text: &mut Bytes,
    listed: &[Listed],
    state: usize,
) -> Result<(), NoMemory>
    requires { state ≤ length listed.now }
    ensures { OnOk result (AddsItems text.old (Verbatim (state_name listed.now state) ∷ []) text.new) }
{
    if state == 0 {
        return put_keyword(text, b"none");
    }
    put_name(text, &listed[state - 1].name)
}
