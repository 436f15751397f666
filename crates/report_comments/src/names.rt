ghost use Rattle.std.specs.Prelude.{◌≡◌, ◌∷◌, [], OnOk};
ghost use Rattle.plan_report.specs.Terms.{demand_name, link_name, path_items};
ghost use Rattle.text_kit.specs.Terms.{Verbatim};
ghost use Rattle.report_comments.specs.Comments.{AddsSpaced, IsOneLine};

use crate::puts::{put_close, put_open, put_word};
use net_core::{Bytes, Demand, Link, LinkId, NoMemory};

/// The name of a link; empty if there is no such link.
#[tactic(auto, using(crate::proofs::NoNames::no_link, crate::proofs::NoNames::one_line))]
fn link_name(links: &[Link], link: LinkId) -> &[u8]
    ensures name { result.now ≡ link_name links.now link }
    ensures line { IsOneLine result.now }
{
    let e = link.0 as usize;
    if e < links.len() {
        links[e].name.bytes()
    } else {
        b""
    }
}

/// The name of a demand; empty if there is no such demand.
#[tactic(auto, using(crate::proofs::NoNames::no_demand, crate::proofs::NoNames::one_line))]
fn demand_name(demands: &[Demand], demand: u32) -> &[u8]
    ensures name { result.now ≡ demand_name demands.now demand }
    ensures line { IsOneLine result.now }
{
    let k = demand as usize;
    if k < demands.len() {
        demands[k].name.bytes()
    } else {
        b""
    }
}

/// Appends a link's name after a space, in the time and memory of `put_link`.
pub fn put_link_name(text: &mut Bytes, links: &[Link], link: LinkId) -> Result<(), NoMemory>
    ensures { OnOk result (AddsSpaced text.old (Verbatim (link_name links.now link) ∷ []) text.new) }
{
    put_word(text, link_name(links, link))
}

/// Appends a word and the name of a link, each after a space; the name is empty if there is no such link. It takes time in their lengths, and
/// asks for memory only if the text has no room left; if memory runs out, the text may end with a part of them.
pub fn put_link(text: &mut Bytes, word: &[u8], links: &[Link], link: LinkId) -> Result<(), NoMemory>
    requires { IsOneLine word.now }
    ensures { OnOk result (AddsSpaced text.old (Verbatim word.now ∷ Verbatim (link_name links.now link) ∷ []) text.new) }
{
    put_word(text, word)?;
    put_link_name(text, links, link)
}

/// Appends a word and the name of a demand, as `put_link` does for a link.
pub fn put_demand(
    text: &mut Bytes,
    word: &[u8],
    demands: &[Demand],
    demand: u32,
) -> Result<(), NoMemory>
    requires { IsOneLine word.now }
    ensures { OnOk result (AddsSpaced text.old (Verbatim word.now ∷ Verbatim (demand_name demands.now demand) ∷ []) text.new) }
{
    put_word(text, word)?;
    put_word(text, demand_name(demands, demand))
}

/// Appends the names of a path's links between parentheses.
pub fn put_path(text: &mut Bytes, links: &[Link], path: &[LinkId]) -> Result<(), NoMemory>
    ensures { OnOk result (AddsSpaced text.old (path_items links.now path.now) text.new) }
{
    put_open(text)?;
    for e in path {
        put_link_name(text, links, *e)?;
    }
    put_close(text)
}
