ghost use Rattle.std.{specs.Prelude.{◌≡◌, ◌+◌, ◌<◌, ◌++◌, [], ◌∷◌, length, OnOk, OnErr, IfErr, IfOk, IsSome, ◌↔◌, slice_get, slice_set, replicate, remove, Some}, specs.Option.option_to_list};

use std::alloc::{AllocError, AllocFailed, Global};
use std::hash::{Hash, Hasher};
use std::marker::Model;
use std::ops::Deref;
use std::slice;
use thiserror::Error;

/// The call ran out of memory.
#[derive(Clone, Copy, Debug, PartialEq, Eq, Error)]
#[error("out of memory")]
pub struct NoMemory;

impl From<AllocError> for NoMemory {
    ghost from_gives = { λ _ _. Unit {0} };

    fn from(_error: AllocError) -> NoMemory {
        NoMemory
    }
}

/// What couldn't be stored is dropped.
impl<T: Drop> From<AllocFailed<T>> for NoMemory {
    ghost from_gives = { λ _ _. Unit {0} };

    fn from(_refused: AllocFailed<T>) -> NoMemory {
        NoMemory
    }
}

/// What couldn't be stored is dropped.
impl<T: Drop> From<(T, NoMemory)> for NoMemory {
    ghost from_gives = { λ _ _. Unit {0} };

    fn from(_refused: (T, NoMemory)) -> NoMemory {
        NoMemory
    }
}

/// A list, which keeps the allocator that it was made with. Its items lie side by side in one block of memory,
/// which is given back when the list is dropped.
#[derive(Drop)]
pub struct List<T> {
    items: Vec<T>,
}

impl<T> Model for List<T> {
    ghost use Rattle.std.specs.Prelude as p;

    ghost Value = { p.List T };

    ghost view = { λ l. l.items.items };
}

impl<T> List<T> {
    ghost use Rattle.std.specs.Borrow.{sem};
    ghost use Rattle.net_core.specs.Lists.{LendsItems};

    /// The empty list. It asks for no memory, and takes constant time.
    pub fn new(alloc: Global) -> List<T>
        ensures { result ≡ [] }
    {
        List {
            items: Vec::new(alloc),
        }
    }

    /// Puts an item last, or hands it back. Only where the list has no room left does it ask for memory, for
    /// twice as many items at least, and the items may move there: so a push takes constant time on average.
    pub fn push(&mut self, item: T) -> Result<(), (T, NoMemory)>
        ensures ok { OnOk result (self.new ≡ self.old ++ item ∷ []) }
        ensures same { OnErr result (self.new ≡ self.old) }
        ensures back { IfErr result (λ e. e.0 ≡ item) }
    {
        match self.items.push(item) {
            Ok(()) => Ok(()),
            Err(refused) => Err((refused.value, NoMemory)),
        }
    }

    /// The items, as a slice. It takes constant time.
    pub fn items(&self) -> &[T]
        ensures { result.now ≡ self.now }
    {
        self.items.as_slice()
    }

    /// The items, for writing. It takes constant time.
    pub fn items_mut(&mut self) -> &mut [T]
        ensures* writes_back { sem 𝓛 (LendsItems T.row self.entry result) }
        ensures value { result.now ≡ self.old }
    {
        self.items.as_mut_slice()
    }

    /// How many items there are. It takes constant time.
    pub fn len(&self) -> usize
        ensures { result ≡ length self.now }
    {
        self.items.len()
    }

    /// Takes an item out; those after it move up, in time that grows with their number. The list keeps its room,
    /// and asks for no memory.
    pub fn remove(&mut self, at: usize) -> T
        requires { at < length self.old }
        ensures item { slice_get self.old at ≡ Some result }
        ensures items { self.new ≡ remove self.old at }
    {
        self.items.remove(at)
    }

    /// The items, as a vector. They stay where they are, in the list's memory: so a loop over the vector moves each item out in constant time.
    pub fn into_vec(self) -> Vec<T>
        ensures { result.items ≡ self }
    {
        self.items
    }

    /// The list of a vector's items. They stay where they are, in the vector's memory.
    pub fn from_vec(items: Vec<T>) -> List<T>
        ensures { result ≡ items.items }
    {
        List { items }
    }
}

/// A list reads as a slice, so the calls of slices work on it, and `list[i]`.
impl<T> Deref for List<T> {
    type Target = Vec<T>;

    fn deref(&self) -> &Vec<T>
        ensures { result.now.items ≡ self.now }
    {
        &self.items
    }
}

impl<'a, T> IntoIterator for &'a List<T> {
    ghost use Rattle.std.specs.Slice.Iter.{iter_rest};

    type Item = &'a T;

    type IntoIter = slice::Iter<'a, T>;

    ghost into_iter_gives = { λ list it. iter_rest it ≡ list.now };

    fn into_iter(self) -> Self::IntoIter {
        self.items.iter()
    }
}

impl<T: Drop> List<T> {
    /// Drops all items, one after another. The list keeps its room for later ones.
    /// It takes time in the size of the items.
    pub fn clear(&mut self)
        ensures { self.new ≡ [] }
    {
        self.items.clear();
    }
}

impl<T: Copy> List<T> {
    /// As many copies of one item, in time that grows with their number. It asks for memory once, for exactly
    /// this number of items, and not at all for none.
    pub fn filled(alloc: Global, item: T, count: usize) -> Result<List<T>, NoMemory>
        ensures { IfOk result (λ l. l ≡ replicate count item) }
    {
        let mut all = List::from_vec(Vec::with_capacity(alloc, count)?);
        for _ in 0..count {
            all.push(item)?;
        }
        Ok(all)
    }

    /// Puts all items last, or none, in time that grows with their number. It asks for memory at most once, where
    /// they don't fit: for all items, or for twice the room that the list had if that is more.
    pub fn append(&mut self, items: &[T]) -> Result<(), NoMemory>
        ensures ok { OnOk result (self.new ≡ self.old ++ items.now) }
        ensures same { OnErr result (self.new ≡ self.old) }
    {
        self.items.extend_from_slice(items)?;
        Ok(())
    }
}

/// A value that can be copied. The copy equals the original. A copy takes time in the size of the original, and
/// asks for memory once for each list in it that isn't empty; if that fails, what was copied so far is dropped.
pub trait Copied: Drop + Sized {
    /// A copy, on the allocator that the original keeps.
    fn copy(&self) -> Result<Self, NoMemory>
        ensures { IfOk result (λ c. c ≡ self.now) };
}

impl<T: Copy> Copied for T {
    fn copy(&self) -> Result<T, NoMemory> {
        Ok(*self)
    }
}

impl<T: Copied> List<T> {
    /// The list of copies of the items, in time in their size. It asks for memory once for the list, and for
    /// what each item's copy takes.
    pub fn from_slice(alloc: Global, items: &[T]) -> Result<List<T>, NoMemory>
        ensures { IfOk result (λ l. l ≡ items.now) }
    {
        let mut all = List::from_vec(Vec::with_capacity(alloc, items.len())?);
        for item in items {
            all.push(item.copy()?)?;
        }
        Ok(all)
    }
}

impl<T: Copied> Copied for List<T> {
    fn copy(&self) -> Result<List<T>, NoMemory> {
        List::from_slice(*self.items.allocator(), self.items.as_slice())
    }
}

impl<T: PartialEq> PartialEq for List<T> {
    ghost use Rattle.std.specs.Cmp.Lexicographic.{pointwise, lists_per};

    ghost eq = { pointwise T.eq };

    ghost laws = { lists_per T.PartialEq.laws };

    fn eq(&self, other: &List<T>) -> bool {
        self.items.as_slice() == other.items.as_slice()
    }
}

impl<T: Eq> Eq for List<T> {
    ghost use Rattle.std.specs.Cmp.Lexicographic.{lists_equiv};

    ghost laws = { lists_equiv T.Eq.laws };
}

impl<T: Hash> Hash for List<T> {
    ghost use Rattle.std.specs.Hash as fed;
    ghost use Rattle.std.specs.Hash.{items_Alike};

    ghost hash_input = { fed.slice T.hash_input };

    ghost respects_eq = { (items_Alike (record { fed = T.respects_eq })).fed };

    fn hash<H: Hasher>(&self, state: &mut H) {
        self.items.as_slice().hash(state);
    }
}
