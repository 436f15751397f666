ghost use Rattle.std.specs.Prelude.{List, All, OnOk, flat_map};
ghost use Rattle.plan_terms.specs.Terms.{CutLine};
ghost use Rattle.text_kit.specs.Terms.{IsEditInForm, edit_items, enclosed, AddsItems};
ghost use Rattle.plan_report.{specs.Forms.{IsEditedInForm, IsEntryInForm, IsReplyInForm}, specs.Items.{entry_items, event_items, numbered_from, reply_items}};

use net_core::{Bytes, Edit, Entry, NoMemory, Places, Reply};
use text_kit::puts::{
    put_close, put_ends, put_field, put_keyword, put_money, put_name, put_number, put_open,
};

/// Puts an edit last.
fn put_edit(text: &mut Bytes, places: Places, edit: &Edit) -> Result<(), NoMemory>
    requires { IsEditInForm edit.now }
    ensures { OnOk result (AddsItems text.old (edit_items places edit.now) text.new) }
{
    match edit {
        Edit::Set { name, need } => {
            put_keyword(text, b"set")?;
            put_name(text, name)?;
            put_money(text, places, *need as u128)
        }
        Edit::Add {
            name,
            from,
            to,
            need,
        } => {
            put_keyword(text, b"add")?;
            put_name(text, name)?;
            put_ends(text, from, to)?;
            put_money(text, places, *need as u128)
        }
        Edit::Drop { name } => {
            put_keyword(text, b"drop")?;
            put_name(text, name)
        }
    }
}

/// Puts a reply last.
fn put_reply(text: &mut Bytes, places: Places, reply: Reply) -> Result<(), NoMemory>
    requires { IsReplyInForm reply }
    ensures { OnOk result (AddsItems text.old (reply_items places reply) text.new) }
{
    match reply {
        Reply::Accepted(version) => put_field(text, b"accepted", version),
        Reply::UnknownDemand => put_keyword(text, b"unknown-demand"),
        Reply::KnownDemand => put_keyword(text, b"known-demand"),
        Reply::UnknownNode => put_keyword(text, b"unknown-node"),
        Reply::SelfDemand => put_keyword(text, b"self-demand"),
        Reply::TooMany => put_keyword(text, b"too-many"),
        Reply::TooMuch(total) => {
            put_keyword(text, b"too-much")?;
            put_money(text, places, total as u128)
        }
    }
}

/// Puts last what an entry has after its position.
fn put_event(text: &mut Bytes, places: Places, entry: &Entry) -> Result<(), NoMemory>
    requires { (pool : List CutLine) × IsEntryInForm pool entry.now }
    ensures { OnOk result (AddsItems text.old (event_items places entry.now) text.new) }
{
    match entry {
        Entry::Edited {
            caller,
            edit,
            reply,
        } => {
            put_field(text, b"caller", *caller as u64)?;
            put_edit(text, places, edit)?;
            put_reply(text, places, *reply)
        }
        Entry::Pooled { index, .. } => put_field(text, b"cut", *index as u64),
    }
}

/// Puts the entry at a position last.
fn put_entry(text: &mut Bytes, places: Places, position: u64, entry: &Entry) -> Result<(), NoMemory>
    requires { (pool : List CutLine) × IsEntryInForm pool entry.now }
    ensures { OnOk result (AddsItems text.old (entry_items places (position, entry.now)) text.new) }
{
    put_open(text)?;
    put_number(text, position)?;
    put_event(text, places, entry)?;
    put_close(text)
}

/// Puts a journal last, between parentheses.
pub(crate) fn put_journal(
    text: &mut Bytes,
    places: Places,
    entries: &[Entry],
) -> Result<(), NoMemory>
    requires { (pool : List CutLine) × All (IsEntryInForm pool) entries.now }
    ensures { OnOk result (AddsItems text.old (enclosed (flat_map (entry_items places) (numbered_from 1 entries.now))) text.new) }
{
    put_open(text)?;
    for i in 0..entries.len() {
        put_entry(text, places, i as u64 + 1, &entries[i])?;
    }
    put_close(text)
}
