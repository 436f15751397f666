ghost use Rattle.std.specs.Prelude.{◌≡◌, ◌≤◌, ◌<◌, ◌-◌, ◌^◌, [], All, IfOk, IfErr, OnErr, OnOk, Some, length, map, max, slice_get};
ghost use Rattle.plan_terms.specs.Terms.{AreDemands, case, graph, edit_need};
ghost use Rattle.metric_cut.specs.Cuts.{IsCutOf};
ghost use Rattle.cut_pool.{specs.Histories.{IsBoardAfter, cuts_of, demands_left, version_left}, specs.Pools.{ArePooledCuts, line_of_pooled}};

use crate::answers::{AdmitAnswer, EditAnswer};
use crate::audit::{lines_with, rights_of};
use crate::entries::Told;
use crate::history::History;
use crate::pooled_cut::{PooledCut, lines_of, place_of};
use crate::snapshot::Snapshot;
use demand_book::Book;
use metric_cut::Cut;
use net_core::limits::{MOST_CUTS, MOST_ENTRIES};
use net_core::{Copied, CutLine, Demands, Edit, Entry, List, Network, NoMemory, States};
use std::alloc::Global;
use std::snapshot::Snapshot as Remembered;
use std::thread::Threads;
use turn_lock::Chronicle;
/// One history of demand edits and pooled cuts, with what it leaves: the demands, their version, and each pooled cut with its
/// right side at the demands now.
///
/// ```text
/// let mut board = Board::new(alloc, &net, &states, opening)?;           // version 0, no entry
/// let answer = board.edit(1, Edit::Set { name, need: 24000 });          // At { position: 1, reply: Accepted(1) }
/// let answer = board.admit(cut);                                        // Admitted { index: 0, position: 2 }
/// board.reserve(100)?;                                                  // for a hundred edits that set a known demand's need
/// ```
#[derive(Drop)]
pub struct Board<'a> {
    net: &'a Network,
    states: &'a States,
    opening: Remembered<Demands>,
    book: Book,
    entries: Told,
    storage: History,
    pool: List<PooledCut>,
    alloc: Global,
    pub ghost told: { entries ≡ storage.entries.items },
    pub ghost nodes: { book.nodes ≡ net.now.nodes },
    pub ghost few: { length entries ≤ 65536 },
    pub ghost few_cuts: { length pool ≤ 4096 },
    pub ghost low: { All (λ c. c.right < 2 ^ 84) pool },
    pub ghost cuts_are: { ∥ ArePooledCuts (case net.now states.now opening.value) pool ∥₁ },
    pub ghost stands: { ∥ IsBoardAfter (case net.now states.now opening.value) entries book.demands book.version (map line_of_pooled pool) ∥₁ },
}

/// The history of a board is its entries, and its origin its network, states and opening demands.
impl<'a> Chronicle for Board<'a> {
    ghost use Rattle.cut_pool.specs.Boards.{origin_of};

    type Item = Entry;

    type Origin = (Network, States, Demands);

    ghost history = { λ b. b.entries };

    ghost origin = { origin_of };

    fn count(&self) -> u64 {
        self.storage.len() as u64
    }
}

impl<'a> Board<'a> {
    ghost use Rattle.cut_pool.specs.Boards.{AnswersAdmit, AnswersEdit, AreLinesNow, IsAudit, IsRightNow, IsSameBoard, IsSnapshotOf, SparesEdit, opening_case, origin_of, spare_of};

    /// The board of the network's opening demands, at version 0, with no entry. It copies the nodes' names; the demands come back
    /// where memory runs out.
    pub fn new(
        alloc: Global,
        net: &'a Network,
        states: &'a States,
        opening: Demands,
    ) -> Result<Board<'a>, (Demands, NoMemory)>
        requires { AreDemands (length net.now.nodes) opening }
        ensures entries { IfOk result (λ b. b.entries ≡ []) }
        ensures spare { IfOk result (λ b. spare_of b ≡ 0) }
        ensures origin { IfOk result (λ b. origin_of b ≡ (net.now, states.now, opening)) }
        ensures back { IfErr result (λ e. e.0 ≡ opening) }
    {
        let remembered = Remembered::of(&opening);
        let storage = History::new(alloc);
        let book = match Book::new(net, opening) {
            Ok(book) => book,
            Err(refused) => return Err(refused),
        };
        Ok(Board {
            net,
            states,
            opening: remembered,
            book,
            entries: storage.told(),
            storage,
            pool: List::new(alloc),
            alloc,
        })
    }

    /// Makes a caller's edit, whose need is in units, and commits it with its reply, also where it is refused. Each right
    /// side then follows by the distances that its cut keeps, in time that grows with the cuts and with the demands.
    /// Where there is memory to spare, an edit that sets the need of a known demand takes what it needs of it, and never runs out.
    pub fn edit(&mut self, caller: u32, edit: Edit) -> EditAnswer
        requires { edit_need edit < 2 ^ 40 }
        ensures answer { AnswersEdit self.old caller edit result self.new }
        ensures spare { SparesEdit self.old edit result self.new }
    {
        if self.len() >= MOST_ENTRIES {
            return EditAnswer::Full(edit);
        }
        match self.storage.commit_edit(
            &mut self.entries,
            &mut self.book,
            &mut self.pool,
            caller,
            edit,
        ) {
            Ok(reply) => EditAnswer::At {
                position: self.len() as u64,
                reply,
            },
            Err(edit) => EditAnswer::NoMemory(edit),
        }
    }

    /// Puts a cut of the board's network and states last in the pool, with its right side at the demands now, and commits it. A cut
    /// that is there already isn't put again: its state is compared first, and lengths in one state alone.
    /// It takes time in the number of cuts, and for a new one in the number of demands; memory for the cut and its entry.
    pub fn admit(&mut self, cut: Cut) -> AdmitAnswer
        requires { IsCutOf (graph self.old.net.now self.old.states.now cut.state.0) cut }
        ensures answer { AnswersAdmit self.old cut result self.new }
        ensures spare { spare_of self.new ≡ spare_of self.old }
    {
        if let Some(index) = place_of(self.pool.items(), &cut) {
            return AdmitAnswer::Known(index as u32, cut);
        }
        if self.pool.len() >= MOST_CUTS {
            return AdmitAnswer::PoolFull(cut);
        }
        if self.len() >= MOST_ENTRIES {
            return AdmitAnswer::Full(cut);
        }
        let right = cut.right(self.book.demands());
        let index = self.pool.len() as u32;
        match self.storage.commit_cut(&mut self.entries, &mut self.pool, PooledCut { cut, right }) {
            Ok(()) => AdmitAnswer::Admitted {
                index,
                position: self.len() as u64,
            },
            Err(cut) => AdmitAnswer::NoMemory(cut),
        }
    }

    /// Takes memory for the entries of this number of edits, each of which sets the need of a known demand.
    pub fn reserve(&mut self, edits: u32) -> Result<(), NoMemory>
        ensures same { IsSameBoard self.old self.new }
        ensures ok { OnOk result (spare_of self.new ≡ max (spare_of self.old) edits) }
        ensures err { OnErr result (spare_of self.new ≡ spare_of self.old) }
    {
        self.storage.reserve(edits)
    }

    /// The number of edits for which the board has memory, if each sets the need of a known demand.
    pub fn spare(&self) -> u32
        ensures { result ≡ spare_of self.now }
    {
        self.storage.spare()
    }

    /// How many entries there are.
    fn len(&self) -> usize
        ensures { result ≡ length self.now.entries }
    {
        self.storage.len()
    }

    /// How many cuts the pool has.
    pub fn cuts(&self) -> u32
        ensures { result ≡ length (cuts_of self.now.entries) }
    {
        self.pool.len() as u32
    }

    /// The cut of this index, with its distances.
    /// It takes constant time, as `cuts`, `right`, `version`, `demands`, `entries` and `entry` do.
    pub fn cut(&self, index: u32) -> &Cut
        requires { index < length (cuts_of self.now.entries) }
        ensures at { slice_get (cuts_of self.now.entries) index ≡ Some (result.now.state.0, result.now.lengths) }
        ensures cut { ∥ IsCutOf (graph self.now.net.now self.now.states.now result.now.state.0) result.now ∥₁ }
    {
        &self.pool.items()[index as usize].cut
    }

    /// The right side of the cut of this index at the demands now, in units of the network.
    pub fn right(&self, index: u32) -> u128
        requires { index < length (cuts_of self.now.entries) }
        ensures right { IsRightNow self.now index result }
        ensures low { result < 2 ^ 84 }
    {
        self.pool.items()[index as usize].right
    }

    /// The version of the demands now: the number of accepted edits.
    pub fn version(&self) -> u64
        ensures { result ≡ version_left (opening_case self.now) self.now.entries }
    {
        self.book.version()
    }

    /// The demands now.
    pub fn demands(&self) -> &Demands
        ensures left { result.now ≡ demands_left (opening_case self.now) self.now.entries }
        ensures belong { AreDemands (length self.now.net.now.nodes) result.now }
    {
        self.book.demands()
    }

    /// The entries, from position 1 on.
    pub fn entries(&self) -> &[Entry]
        ensures { result.now ≡ self.now.entries }
    {
        self.storage.entries()
    }

    /// The entry at this position; positions count from 1.
    pub fn entry(&self, position: u64) -> &Entry
        requires { (1 ≤ position) × (position ≤ length self.now.entries) }
        ensures { slice_get self.now.entries (position - 1) ≡ Some result.now }
    {
        &self.storage.entries()[position as usize - 1]
    }

    /// The lines of the pool, with their right sides at the demands now.
    /// It copies the lengths of each cut: time and memory in the cuts times the links.
    pub fn lines(&self) -> Result<List<CutLine>, NoMemory>
        ensures { IfOk result (AreLinesNow self.now) }
    {
        lines_of(self.alloc, self.pool.items())
    }

    /// The right side of each cut, in the pool's order, summed anew from the demands now. Threads share the cuts; all in all it takes time
    /// in the cuts times the demands, and 16 bytes a cut.
    pub fn audit<R: Threads + Sync>(&self, rt: &R) -> Result<List<u128>, NoMemory>
        ensures kept { IfOk result (λ rights. rights ≡ map (λ c. c.right) self.now.pool) }
        ensures now { IfOk result (IsAudit self.now) }
    {
        rights_of(rt, self.alloc, self.pool.items(), self.book.demands())
    }

    /// The lines of the pool, with right sides that are summed anew.
    /// It takes the time of `audit`, and the memory of `lines`.
    pub fn audited_lines<R: Threads + Sync>(&self, rt: &R) -> Result<List<CutLine>, NoMemory>
        ensures { IfOk result (AreLinesNow self.now) }
    {
        let rights = self.audit(rt)?;
        lines_with(self.alloc, self.pool.items(), rights.items())
    }

    /// What the board is now. It copies the demands, and of each cut the lengths.
    /// Time and memory grow with the demands, and with the cuts times the links.
    pub fn snapshot(&self) -> Result<Snapshot, NoMemory>
        ensures { IfOk result (IsSnapshotOf self.now) }
    {
        Ok(Snapshot {
            version: self.version(),
            position: self.count(),
            demands: self.demands().copy()?,
            cuts: self.lines()?,
        })
    }
}
