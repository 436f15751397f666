//! Edits as the tables of tests write them.
ghost use Rattle.std.specs.Prelude.{◌<◌, ◌^◌, IfSome};
ghost use Rattle.plan_terms.specs.Terms.{edit_need};

use net_core::{Edit, Name};
use std::alloc::Global;

/// An edit: a name, two ends, a need in thousandths. Each name is a letter.
#[derive(Clone, Copy)]
pub enum Change {
    Set(u8, u32),
    Add(u8, u8, u8, u32),
    Drop(u8),
}

/// A new demand of these names.
pub fn added(alloc: Global, name: &[u8], from: u8, to: u8, need: u64) -> Option<Edit>
    requires { need < 2 ^ 40 }
    ensures { IfSome result (λ e. edit_need e < 2 ^ 40) }
{
    Some(Edit::Add {
        name: Name::new(alloc, name).ok()?,
        from: Name::new(alloc, &[from]).ok()?,
        to: Name::new(alloc, &[to]).ok()?,
        need,
    })
}

/// The edit; `None` if a name isn't one, or if memory runs out.
pub fn edit_of(alloc: Global, change: &Change) -> Option<Edit>
    ensures { IfSome result (λ e. edit_need e < 2 ^ 40) }
{
    match change {
        Change::Set(name, need) => Some(Edit::Set {
            name: Name::new(alloc, &[*name]).ok()?,
            need: *need as u64,
        }),
        Change::Add(name, from, to, need) => added(alloc, &[*name], *from, *to, *need as u64),
        Change::Drop(name) => Some(Edit::Drop {
            name: Name::new(alloc, &[*name]).ok()?,
        }),
    }
}
