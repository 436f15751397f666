ghost use Rattle.std.specs.Prelude.{◌≡◌, ◌≤◌, ◌++◌, ◌∷◌, [], None, false, length, position, IfOk, IsTrue, OnOk};
ghost use Rattle.net_core.{specs.Terms.{are_same, is_named, is_plain}, specs.Limits.name_bytes};
ghost use Rattle.snd_tokens.specs.Terms.{EndAt};
ghost use Rattle.text_kit.specs.Terms.{ReadsAs, placed, sound};

use crate::fault::{ReadKind, ReadRefusal};
use indexmap::IndexSet;
use net_core::{Name, NoMemory};
use std::alloc::Global;
use std::marker::Model;
use text_kit::names::named;

/// Names in the order in which they came, each once and as the word of the file that it is, so that none is copied. One is
/// found in constant time.
#[derive(Drop)]
pub(crate) struct Names<'a> {
    words: IndexSet<&'a [u8]>,
}

impl<'a> Model for Names<'a> {
    ghost use Rattle.std.specs.Prelude as p;

    ghost Value = { p.List (p.List p.ℕ) };

    ghost view = { λ n. p.map (λ w. w.now) n.words.keys };
}

impl<'a> Names<'a> {
    /// No names.
    pub(crate) fn new(alloc: Global) -> Names<'a>
        ensures { result ≡ [] }
    {
        Names {
            words: IndexSet::new(alloc),
        }
    }

    /// How many names there are.
    pub(crate) fn len(&self) -> usize
        ensures { result ≡ length self.now }
    {
        self.words.len()
    }

    /// Whether this is one of them.
    pub(crate) fn has(&self, name: &[u8]) -> bool
        ensures { result ≡ is_named (λ n. n) name.now self.now }
    {
        self.words.contains(name)
    }

    /// The place of a name.
    pub(crate) fn place(&self, name: &[u8]) -> Option<usize>
        ensures { result ≡ position (λ n. are_same n name.now) self.now }
    {
        self.words.get_index_of(name)
    }

    /// Puts a new name last.
    fn push(&mut self, name: &'a [u8]) -> Result<(), NoMemory>
        requires { is_named (λ n. n) name.now self.now ≡ false }
        ensures { OnOk result (self.new ≡ self.old ++ name.now ∷ []) }
    {
        self.words.insert(name)?;
        Ok(())
    }

    /// The name that a word at a place is, if it has no fault; it is the last name then.
    pub(crate) fn put(
        &mut self,
        alloc: Global,
        at: u64,
        word: &'a [u8],
        fault: Option<ReadKind>,
    ) -> Result<Name, ReadRefusal>
        requires some { 1 ≤ length word.now }
        requires plain { IsTrue (is_plain word.now) }
        requires short { fault ≡ None → length word.now ≤ name_bytes }
        requires free { fault ≡ None → is_named (λ n. n) word.now self.now ≡ false }
        ensures reads { ReadsAs (λ n. n) result (EndAt at) (placed at (EndAt at) (sound word.now fault)) }
        ensures last { IfOk result (λ n. self.new ≡ self.old ++ n ∷ []) }
    {
        if fault.is_none() {
            self.push(word)?;
        }
        named(alloc, at, word, fault)
    }
}
