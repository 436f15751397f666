ghost use Rattle.std.specs.Prelude.{◌≡◌, ◌++◌, ◌∷◌, ◌<◌, [], length, Ok, true, false, IfSome, position, map};
ghost use Rattle.net_core.specs.Terms.{are_same, is_named};

use indexmap::IndexSet;
use net_core::NoMemory;
use std::alloc::Global;
use std::marker::Model;

/// Different names in the order in which they came, numbered from 0. A name is found in time that
/// doesn't grow with their number. The names are lent: memory is kept for their places alone.
#[derive(Drop)]
pub struct Places<'a> {
    names: IndexSet<&'a [u8]>,
}

impl<'a> Model for Places<'a> {
    ghost use Rattle.std.specs.Prelude.{List, ℕ, map};

    ghost Value = { List (List ℕ) };

    ghost view = { λ p. map (λ n. n.now) p.names.keys };
}

impl<'a> Places<'a> {
    /// No names, which take no memory.
    pub fn new(alloc: Global) -> Places<'a>
        ensures { result ≡ [] }
    {
        Places {
            names: IndexSet::new(alloc),
        }
    }

    /// The place of a name, from 0, if it is one of these.
    /// It takes constant time on average, beside the bytes of the name.
    pub fn find(&self, name: &[u8]) -> Option<usize>
        ensures place { result ≡ position (λ n. are_same n name.now) self.now }
        ensures within { IfSome result (λ i. i < length self.now) }
    {
        self.names.get_index_of(name)
    }

    /// Puts a name last, where it is new, and says whether it was. It fails where memory runs out.
    pub fn add(&mut self, name: &'a [u8]) -> Result<bool, NoMemory>
        ensures new { result ≡ Ok true → self.new ≡ self.old ++ name.now ∷ [] }
        ensures fresh { result ≡ Ok true → is_named (λ n. n) name.now self.old ≡ false }
        ensures old { result ≡ Ok false → is_named (λ n. n) name.now self.old ≡ true }
    {
        let (_, added) = self.names.insert_full(name)?;
        Ok(added)
    }
}
