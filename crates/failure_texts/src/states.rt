ghost use Rattle.std.specs.Prelude.{◌≡◌, ◌<◌, ◌∷◌, [], All, OnOk, codes, flat_map, length};
ghost use Rattle.text_kit.specs.Terms.{AddsItems, Closing, Opening, Verbatim, section};
ghost use Rattle.failure_texts.specs.inner.FateItems.{fate_items};

use crate::fates::Fate;
use net_core::{Bytes, Link, Name, NoMemory};
use text_kit::puts::{put_close, put_name, put_open, put_section};

/// Puts the failure of a link last, under the link's name.
fn put_failure(text: &mut Bytes, name: &Name) -> Result<(), NoMemory>
    ensures { OnOk result (AddsItems text.old (Verbatim name.now ∷ Opening ∷ Verbatim name.now ∷ Closing ∷ []) text.new) }
{
    put_name(text, name)?;
    put_open(text)?;
    put_name(text, name)?;
    put_close(text)
}

/// Puts the failure of a link last, if it separates nothing.
fn put_fate(text: &mut Bytes, links: &[Link], fate: Fate) -> Result<(), NoMemory>
    requires { fate.link.0 < length links.now }
    ensures { OnOk result (AddsItems text.old (fate_items links.now fate) text.new) }
{
    match fate.separated {
        None => put_failure(text, &links[fate.link.0 as usize].name),
        Some(_) => Ok(()),
    }
}

/// Puts the section of the failures that separate nothing last.
pub(crate) fn put_states(text: &mut Bytes, links: &[Link], fates: &[Fate]) -> Result<(), NoMemory>
    requires { All (λ f. f.link.0 < length links.now) fates.now }
    ensures { OnOk result (AddsItems text.old (section (codes "FAILURES") (flat_map (fate_items links.now) fates.now)) text.new) }
{
    put_section(text, b"FAILURES")?;
    for fate in fates {
        put_fate(text, links, *fate)?;
    }
    put_close(text)
}
