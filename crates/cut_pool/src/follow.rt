ghost use Rattle.std.specs.Prelude.{◌≡◌, ◌<◌, ◌^◌, All, IfOk, OnErr, length, map};
ghost use Rattle.demand_book.specs.Book.{IsAdd};
ghost use Rattle.plan_terms.specs.Terms.{edit_need, edit_reply, version_after};
ghost use Rattle.cut_pool.specs.inner.Pooling.{StandsAt};

use crate::pooled_cut::{PooledCut, follow_all};
use crate::shares::{NeedChange, name_of, share_of};
use demand_book::Book;
use net_core::{Edit, List, NoMemory, Reply};

/// Makes an edit, which each right side of the pool then follows by the distances that its cut keeps. Only the demand of the
/// edit's name has changed, so each right side loses what that demand asked for before, and gains what it asks for now.
pub fn make_edit(
    book: &mut Book,
    pool: &mut List<PooledCut>,
    edit: &Edit,
) -> Result<Reply, NoMemory>
    requires need { edit_need edit.now < 2 ^ 40 }
    requires pool { All (StandsAt (length book.old.nodes) book.old.demands) pool.old }
    ensures answer { IfOk result (λ r. (r, book.new.demands) ≡ edit_reply book.old.nodes book.old.demands book.old.version edit.now) }
    ensures version { IfOk result (λ r. book.new.version ≡ version_after book.old.version r) }
    ensures nodes { book.new.nodes ≡ book.old.nodes }
    ensures same { OnErr result ((book.new ≡ book.old) × (pool.new ≡ pool.old)) }
    ensures only_add { OnErr result (IsAdd edit.now) }
    ensures cuts { map (λ c. c.cut) pool.new ≡ map (λ c. c.cut) pool.old }
    ensures pool { All (StandsAt (length book.new.nodes) book.new.demands) pool.new }
{
    let name = name_of(edit);
    let before = share_of(book, name);
    let reply = book.apply(edit)?;
    let after = share_of(book, name);
    follow_all(pool, &NeedChange { before, after });
    Ok(reply)
}
