ghost use Rattle.std.specs.Prelude.{◌≡◌, ◌-◌, ◌<◌, ◌^◌, ◌↔◌, List, IfOk, IsTrue, OnOk, []};
ghost use Rattle.plan_terms.specs.Terms.{Case, case_of, Entry as Event, edit_need, edit_reply, version_after};
ghost use Rattle.report_checker.specs.inner.Walks.{HasPassed, HasSmallNeed, Passes};

use demand_book::Book;
use net_core::{Copied, Edit, Entry, Instance, NoMemory, Reply};

/// How far a walk through a journal has come: the demands there, and how many cuts it has passed.
#[derive(Drop)]
pub struct Walk {
    pub book: Book,
    pub cuts: u32,
}

/// A walk before the first entry, with the instance's demands. It takes time and memory for a copy of
/// these, and of the nodes' names, and fails only where memory runs out.
pub fn walk_from(instance: &Instance) -> Result<Walk, NoMemory>
    ensures { IfOk result (HasPassed (case_of instance.now) []) }
{
    let opening = instance.demands.copy()?;
    let book = Book::new(instance.net, opening)?;
    Ok(Walk { book, cuts: 0 })
}

impl Walk {
    /// Makes an edit, and says whether this is its reply.
    fn pass_edit(&mut self, edit: &Edit, reply: Reply) -> Result<bool, NoMemory>
        requires { edit_need edit.now < 2 ^ 40 }
        ensures reply { IfOk result (λ r. IsTrue r ↔ ((edit_reply self.old.book.nodes self.old.book.demands self.old.book.version edit.now).0 ≡ reply)) }
        ensures demands { OnOk result (self.new.book.demands ≡ (edit_reply self.old.book.nodes self.old.book.demands self.old.book.version edit.now).1) }
        ensures version { OnOk result (self.new.book.version
            ≡ version_after self.old.book.version
            (edit_reply self.old.book.nodes self.old.book.demands self.old.book.version edit.now).0) }
        ensures nodes { OnOk result (self.new.book.nodes ≡ self.old.book.nodes) }
        ensures cuts { self.new.cuts ≡ self.old.cuts }
    {
        Ok(self.book.apply(edit)? == reply)
    }

    /// Passes one entry, and says whether it is the one that is expected: an edit with the reply that it gets, or the next cut.
    /// An edit looks its demand up through the list, which takes time in the number of demands; it fails where memory runs out.
    pub fn pass(&mut self, entry: &Entry) -> Result<bool, NoMemory>
        requires need { HasSmallNeed entry.now }
        requires few { self.old.cuts < 2 ^ 32 - 1 }
        ensures { IfOk result (λ expected. (p : Case) (before : List Event) → HasPassed p before self.old → Passes p before entry.now expected self.new) }
    {
        match entry {
            Entry::Edited { edit, reply, .. } => self.pass_edit(edit, *reply),
            Entry::Pooled { index, .. } => {
                let expected = *index == self.cuts;
                self.cuts += 1;
                Ok(expected)
            }
        }
    }
}
