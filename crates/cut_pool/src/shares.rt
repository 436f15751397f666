ghost use Rattle.std.specs.Prelude.{◌≡◌, ◌↔◌, IsTrue, length};
ghost use Rattle.cut_pool.{specs.Rooms.sets_known, specs.inner.Shares.{IsShareIn, IsShareOfDemand, edit_name}};

use demand_book::Book;
use net_core::{Demand, Edit, Name, NodeId};

/// What a demand adds to right sides: a need, in units of the network, between two nodes.
#[derive(Clone, Copy, PartialEq, Eq)]
pub struct DemandShare {
    pub from: NodeId,
    pub to: NodeId,
    pub need: u64,
}

/// The share of the demand of one name before and after an edit, if there is such a demand.
#[derive(Clone, Copy)]
pub struct NeedChange {
    pub before: Option<DemandShare>,
    pub after: Option<DemandShare>,
}

impl NeedChange {
    /// Whether the shares are the same.
    pub fn is_none(&self) -> bool
        ensures { IsTrue result ↔ (self.now.before ≡ self.now.after) }
    {
        self.before == self.after
    }
}

/// The name that the edit speaks of.
pub fn name_of(edit: &Edit) -> &Name
    ensures { result.now ≡ edit_name edit.now }
{
    match edit {
        Edit::Set { name, .. } | Edit::Add { name, .. } | Edit::Drop { name } => name,
    }
}

/// The share of a demand.
fn share(d: &Demand) -> DemandShare
    ensures { result ≡ record { from = d.now.from; to = d.now.to; need = d.now.need } }
{
    DemandShare {
        from: d.from,
        to: d.to,
        need: d.need,
    }
}

/// The share of the demand of this name, which takes time in the number of demands.
pub fn share_of(book: &Book, name: &Name) -> Option<DemandShare>
    ensures of { IsShareOfDemand (length book.now.nodes) result }
    ensures share { IsShareIn name.now book.now.demands result }
{
    let k = book.find(name)?;
    Some(share(&book.demands().items()[k as usize]))
}

/// Whether the edit sets the need of a demand that the book has.
pub fn sets_known(book: &Book, edit: &Edit) -> bool
    ensures { result ≡ sets_known book.now.demands edit.now }
{
    match edit {
        Edit::Set { name, .. } => book.find(name).is_some(),
        Edit::Add { .. } | Edit::Drop { .. } => false,
    }
}
