ghost use Rattle.std.specs.Prelude.{◌≡◌, ◌≢◌, ◌<◌, ◌≤◌, ◌^◌, List, ℕ, IfOk, IfErr, OnErr, length, position, Some, None, false};
ghost use Rattle.plan_terms.specs.Terms.{AreDemands, are_same, Add, Drop, Set, add_fault, edit_need, edit_reply, is_demand, node_of, total_need, version_after};
ghost use Rattle.demand_book.specs.Book.{IsAdd};

use crate::find::{demand_place, give_need, node_place, sum_of_needs};
use net_core::limits::{MOST_DEMANDS, TOO_MUCH};
use net_core::{Copied, Demand, Demands, Edit, List, Name, Network, NoMemory, NodeId, Reply};
/// The demands of a network's nodes, which edits change, with the version that counts the accepted ones.
///
/// ```text
/// let mut book = Book::new(&net, opening)?;                            // version 0
/// let reply = book.apply(&Edit::Set { name, need: 24000 })?;           // Accepted(1), or UnknownDemand, or TooMuch(total)
/// let at = book.find(&other);                                          // its place in book.demands()
/// ```
#[derive(Drop)]
pub struct Book {
    nodes: List<Name>,
    demands: Demands,
    total: u64,
    version: u64,
    pub ghost few: { length nodes ≤ 128 },
    pub ghost belong: { AreDemands (length nodes) demands },
    pub ghost summed: { total ≡ total_need demands },
}

impl Book {
    /// The book of the network's opening demands, at version 0. It copies the nodes' names; the demands come back where memory
    /// runs out.
    pub fn new(net: &Network, opening: Demands) -> Result<Book, (Demands, NoMemory)>
        requires { AreDemands (length net.now.nodes) opening }
        ensures made { IfOk result (λ b. (b.nodes ≡ net.now.nodes) × (b.demands ≡ opening) × (b.version ≡ 0)) }
        ensures back { IfErr result (λ e. e.0 ≡ opening) }
    {
        let Ok(nodes) = net.nodes().copy() else {
            return Err((opening, NoMemory));
        };
        let total = sum_of_needs(opening.items());
        Ok(Book {
            nodes,
            demands: opening,
            total,
            version: 0,
        })
    }

    /// The number of accepted edits; it stays at 2^64 - 1. It takes constant time.
    pub fn version(&self) -> u64
        ensures { result ≡ self.now.version }
    {
        self.version
    }

    /// All needs together, in units of the network. It takes constant time.
    pub fn total(&self) -> u64
        ensures { result ≡ total_need self.now.demands }
    {
        self.total
    }

    /// The demands, in the order in which they were added.
    /// It takes constant time, as `version` and `total` do.
    pub fn demands(&self) -> &Demands
        ensures { result.now ≡ self.now.demands }
    {
        &self.demands
    }

    /// The place of the demand of this name, which takes time in the number of demands.
    pub fn find(&self, name: &Name) -> Option<u32>
        ensures { result ≡ position (λ d. are_same d.name name.now) self.now.demands }
    {
        demand_place(self.demands.items(), name).map(|k| k as u32)
    }

    /// Makes the edit, or says why it can't be made; needs are in units. It takes time in the number of demands. A new
    /// demand takes memory for its name and its place; where there is none, the book stays as it was.
    pub fn apply(&mut self, edit: &Edit) -> Result<Reply, NoMemory>
        requires { edit_need edit.now < 2 ^ 40 }
        ensures answer { IfOk result (λ r. (r, self.new.demands) ≡ edit_reply self.old.nodes self.old.demands self.old.version edit.now) }
        ensures version { IfOk result (λ r. self.new.version ≡ version_after self.old.version r) }
        ensures nodes { self.new.nodes ≡ self.old.nodes }
        ensures same { OnErr result (self.new ≡ self.old) }
        ensures only_add { OnErr result (IsAdd edit.now) }
    {
        match edit {
            Edit::Set { name, need } => Ok(self.set(name, *need)),
            Edit::Add {
                name,
                from,
                to,
                need,
            } => self.add(name, from, to, *need),
            Edit::Drop { name } => Ok(self.drop_demand(name)),
        }
    }

    /// Gives the demand another need.
    fn set(&mut self, name: &Name, need: u64) -> Reply
        requires { need < 2 ^ 40 }
        ensures answer { (result, self.new.demands) ≡ edit_reply self.old.nodes self.old.demands self.old.version (Set name.now need) }
        ensures version { self.new.version ≡ version_after self.old.version result }
        ensures nodes { self.new.nodes ≡ self.old.nodes }
    {
        let Some(k) = demand_place(self.demands.items(), name) else {
            return Reply::UnknownDemand;
        };
        let total = self.total - self.demands.items()[k].need + need;
        if total >= TOO_MUCH {
            return Reply::TooMuch(total);
        }
        give_need(&mut self.demands, k, need);
        self.total = total;
        self.version = self.version.saturating_add(1);
        Reply::Accepted(self.version)
    }

    /// Takes the demand out.
    fn drop_demand(&mut self, name: &Name) -> Reply
        ensures answer { (result, self.new.demands) ≡ edit_reply self.old.nodes self.old.demands self.old.version (Drop name.now) }
        ensures version { self.new.version ≡ version_after self.old.version result }
        ensures nodes { self.new.nodes ≡ self.old.nodes }
    {
        let Some(k) = demand_place(self.demands.items(), name) else {
            return Reply::UnknownDemand;
        };
        let taken = self.demands.remove(k);
        self.total -= taken.need;
        self.version = self.version.saturating_add(1);
        Reply::Accepted(self.version)
    }

    /// The ends of a new demand of this name, or why there can't be one.
    fn ends(&self, name: &Name, from: &Name, to: &Name) -> Result<(NodeId, NodeId), Reply>
        ensures ok { IfOk result (λ e. (add_fault self.now.nodes self.now.demands name.now from.now to.now ≡ None)
            × (e.0.0 ≡ node_of self.now.nodes from.now) × (e.1.0 ≡ node_of self.now.nodes to.now)) }
        ensures nodes { IfOk result (λ e. (e.0.0 < length self.now.nodes) × (e.1.0 < length self.now.nodes) × (e.0.0 ≢ e.1.0)) }
        ensures new { IfOk result (λ e. (is_demand name.now self.now.demands ≡ false) × (length self.now.demands < 2048)) }
        ensures fault { IfErr result (λ r. add_fault self.now.nodes self.now.demands name.now from.now to.now ≡ Some r) }
    {
        if demand_place(self.demands.items(), name).is_some() {
            return Err(Reply::KnownDemand);
        }
        let Some(first) = node_place(self.nodes.items(), from) else {
            return Err(Reply::UnknownNode);
        };
        let Some(second) = node_place(self.nodes.items(), to) else {
            return Err(Reply::UnknownNode);
        };
        if from == to {
            return Err(Reply::SelfDemand);
        }
        if self.demands.len() >= MOST_DEMANDS {
            return Err(Reply::TooMany);
        }
        Ok((NodeId(first as u32), NodeId(second as u32)))
    }

    /// Puts a new demand last.
    fn add(&mut self, name: &Name, from: &Name, to: &Name, need: u64) -> Result<Reply, NoMemory>
        requires { need < 2 ^ 40 }
        ensures answer { IfOk result (λ r. (r, self.new.demands)
            ≡ edit_reply self.old.nodes self.old.demands self.old.version (Add name.now from.now to.now need)) }
        ensures version { IfOk result (λ r. self.new.version ≡ version_after self.old.version r) }
        ensures nodes { self.new.nodes ≡ self.old.nodes }
        ensures same { OnErr result (self.new ≡ self.old) }
    {
        let (from, to) = match self.ends(name, from, to) {
            Ok(ends) => ends,
            Err(fault) => return Ok(fault),
        };
        let total = self.total + need;
        if total >= TOO_MUCH {
            return Ok(Reply::TooMuch(total));
        }
        let name = name.copy()?;
        self.demands.push(Demand {
            name,
            from,
            to,
            need,
        })?;
        self.total = total;
        self.version = self.version.saturating_add(1);
        Ok(Reply::Accepted(self.version))
    }
}
