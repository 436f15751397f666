ghost use Rattle.std.{specs.Prelude.{◌≡◌, ◌≤◌, ◌+◌, ◌<◌, ◌^◌, ◌++◌, [], ◌∷◌, All, IfOk, IfErr, OnErr, OnOk, length, map, max, true}, specs.Vec.{vec_capacity, vec_len}};
ghost use Rattle.plan_terms.specs.Terms.{Edited, Pooled, edit_need, edit_reply, version_after};
ghost use Rattle.cut_pool.{specs.Rooms.{left_spare, sets_known}, specs.inner.Pooling.StandsAt};

use crate::entries::Told;
use crate::follow::make_edit;
use crate::pooled_cut::PooledCut;
use crate::shares::sets_known;
use demand_book::Book;
use metric_cut::Cut;
use net_core::{Edit, Entry, List, NoMemory, Reply};
use std::alloc::Global;

/// The entries of a history, in their order, with memory for some further ones. A commit is given the entries as they were told
/// before, and tells them anew.
#[derive(Drop)]
pub struct History {
    entries: Vec<Entry>,
    spare: u32,
    pub ghost room: { vec_len entries + spare ≤ vec_capacity entries },
}

impl History {
    /// The history without entries, and without memory for any.
    pub fn new(alloc: Global) -> History
        ensures entries { result.entries.items ≡ [] }
        ensures spare { result.spare ≡ 0 }
    {
        History {
            entries: Vec::new(alloc),
            spare: 0,
        }
    }

    /// The entries, as contracts read them.
    pub fn told(&self) -> Told
        ensures { result ≡ self.now.entries.items }
    {
        Told::of(&self.entries)
    }

    /// The entries.
    pub fn entries(&self) -> &[Entry]
        ensures { result.now ≡ self.now.entries.items }
    {
        self.entries.as_slice()
    }

    /// How many entries there are.
    pub fn len(&self) -> usize
        ensures { result ≡ length self.now.entries.items }
    {
        self.entries.len()
    }

    /// The number of edits for which there is memory, if each sets the need of a known demand.
    pub fn spare(&self) -> u32
        ensures { result ≡ self.now.spare }
    {
        self.spare
    }

    /// Takes memory for this number of edits.
    pub fn reserve(&mut self, edits: u32) -> Result<(), NoMemory>
        ensures entries { self.new.entries.items ≡ self.old.entries.items }
        ensures ok { OnOk result (self.new.spare ≡ max self.old.spare edits) }
        ensures err { OnErr result (self.new.spare ≡ self.old.spare) }
    {
        if self.entries.reserve(edits as usize).is_err() {
            return Err(NoMemory);
        }
        self.spare = self.spare.max(edits);
        Ok(())
    }

    /// The number of edits for which there is memory once this one is committed.
    fn left(&self, book: &Book, edit: &Edit) -> u32
        ensures { result ≡ left_spare book.now.demands edit.now self.now.spare }
    {
        if sets_known(book, edit) {
            return self.spare.saturating_sub(1);
        }
        self.spare
    }

    /// Makes an edit, which the right sides follow, and commits it with its reply. Memory for the entry is taken first, since a
    /// made edit isn't undone; where an edit sets the need of a known demand, it is memory that was spared for it, if there is any.
    pub fn commit_edit(
        &mut self,
        told: &mut Told,
        book: &mut Book,
        pool: &mut List<PooledCut>,
        caller: u32,
        edit: Edit,
    ) -> Result<Reply, Edit>
        requires need { edit_need edit < 2 ^ 40 }
        requires told { told.old ≡ self.old.entries.items }
        requires pool { All (StandsAt (length book.old.nodes) book.old.demands) pool.old }
        ensures entries { IfOk result (λ r. told.new ≡ told.old ++ Edited caller edit r ∷ []) }
        ensures answer { IfOk result (λ r. (r, book.new.demands) ≡ edit_reply book.old.nodes book.old.demands book.old.version edit) }
        ensures version { IfOk result (λ r. book.new.version ≡ version_after book.old.version r) }
        ensures spare { IfOk result (λ r. self.new.spare ≡ left_spare book.old.demands edit self.old.spare) }
        ensures nodes { book.new.nodes ≡ book.old.nodes }
        ensures same { IfErr result (λ e. (e ≡ edit) × (told.new ≡ told.old) × (book.new ≡ book.old) × (pool.new ≡ pool.old)) }
        ensures kept { OnErr result (self.new.spare ≡ self.old.spare) }
        ensures none { OnErr result (sets_known book.old.demands edit ≡ true → self.old.spare ≡ 0) }
        ensures cuts { map (λ c. c.cut) pool.new ≡ map (λ c. c.cut) pool.old }
        ensures pool { All (StandsAt (length book.new.nodes) book.new.demands) pool.new }
        ensures told { told.new ≡ self.new.entries.items }
    {
        let left = self.left(book, &edit);
        if self.entries.reserve(left as usize + 1).is_err() {
            return Err(edit);
        }
        let Ok(reply) = make_edit(book, pool, &edit) else {
            return Err(edit);
        };
        self.spare = left;
        self.entries.push_reserved(Entry::Edited {
            caller,
            edit,
            reply,
        });
        *told = self.told();
        Ok(reply)
    }

    /// The entry of a cut at this index, with memory for it beside what is spared.
    fn entry_with_room(&mut self, pooled: &PooledCut, index: u32) -> Result<Entry, NoMemory>
        ensures entries { self.new.entries.items ≡ self.old.entries.items }
        ensures spare { self.new.spare ≡ self.old.spare }
        ensures entry { IfOk result (λ e. e ≡ Pooled index pooled.now.cut.state pooled.now.cut.lengths) }
        ensures room { OnOk result (vec_len self.new.entries + self.new.spare + 1 ≤ vec_capacity self.new.entries) }
    {
        if self.entries.reserve(self.spare as usize + 1).is_err() {
            return Err(NoMemory);
        }
        pooled.entry(index)
    }

    /// Puts a cut last in the pool and commits it. Memory for the entry is taken first, beside what is spared.
    pub fn commit_cut(
        &mut self,
        told: &mut Told,
        pool: &mut List<PooledCut>,
        pooled: PooledCut,
    ) -> Result<(), Cut>
        requires told { told.old ≡ self.old.entries.items }
        requires pool { length pool.old < 2 ^ 32 }
        ensures entries { OnOk result (told.new ≡ told.old ++ Pooled (length pool.old) pooled.cut.state pooled.cut.lengths ∷ []) }
        ensures pool { OnOk result (pool.new ≡ pool.old ++ pooled ∷ []) }
        ensures same { IfErr result (λ cut. (cut ≡ pooled.cut) × (told.new ≡ told.old) × (pool.new ≡ pool.old)) }
        ensures spare { self.new.spare ≡ self.old.spare }
        ensures told { told.new ≡ self.new.entries.items }
    {
        let Ok(entry) = self.entry_with_room(&pooled, pool.len() as u32) else {
            return Err(pooled.cut);
        };
        if let Err((pooled, _)) = pool.push(pooled) {
            return Err(pooled.cut);
        }
        self.entries.push_reserved(entry);
        *told = self.told();
        Ok(())
    }
}
