ghost use Rattle.std.specs.Prelude.{◌≡◌, slice_index, IfOk, IfErr, IfSome};
ghost use Rattle.hint_board.specs.inner.Tags.{ArePricedByTag};

use boxcar::tag::{Names, Tag};
use boxcar::{Keeps, Pushed, Vec};
use net_core::{Lengths, NoMemory};
use std::alloc::Global;
use std::sync::Wait;

/// The rule of a board's vectors.
struct Priced;

impl Keeps<Lengths> for Priced {
    ghost holds = { λ tag _ lengths. ArePricedByTag tag lengths };
}

/// The number of links, which the rule reads.
struct Links;

impl Names<u32> for Links {
    ghost use Rattle.std.specs.Prelude.{[], ◌∷◌};

    ghost numbers = { λ links. links ∷ [] };
}

/// Length vectors that threads show each other through a `&`. A board only grows, and a vector stays where it was posted.
#[derive(Drop)]
pub struct HintBoard {
    vectors: Vec<Lengths, Global, Priced>,
    links: u32,
    ghost tag: { slice_index vectors.tag 0 ≡ links },
}

/// What shows which vector was posted at which index of a board.
#[derive(Drop)]
pub struct Hint {
    place: Pushed<Lengths, Global, Priced>,
}

impl Hint {
    ghost use Rattle.hint_board.specs.Hints.{index_of_hint};

    /// The index of the posted vector on its board.
    /// It takes constant time.
    pub fn at(&self) -> u64
        ensures { result ≡ index_of_hint self.now }
    {
        self.place.index() as u64
    }
}

impl HintBoard {
    ghost use Rattle.hint_board.specs.Priced.{AreHintLengths};
    ghost use Rattle.hint_board.specs.Hints.{IsHintOf, hint_links, posted_lengths};

    /// An empty board for vectors of this number of lengths. It takes a fixed amount of memory, whatever the number.
    pub fn new(alloc: Global, links: u32) -> Result<HintBoard, NoMemory>
        ensures { IfOk result (λ board. hint_links board ≡ links) }
    {
        let vectors = Vec::with_rule(alloc, Tag::of::<u32, Links>(&links))?;
        Ok(HintBoard { vectors, links })
    }

    /// Posts priced lengths, one for each link, or hands them back. The first call takes memory for 32 vectors, and a call that
    /// finds a board without room takes memory for twice as many as were added the last time. It may wait while another thread
    /// does that; else it takes constant time.
    pub fn post<R: Wait>(&self, rt: &R, lengths: Lengths) -> Result<Hint, (Lengths, NoMemory)>
        requires { AreHintLengths (hint_links self.now) lengths }
        ensures own { IfOk result (IsHintOf self.now) }
        ensures posted { IfOk result (λ hint. posted_lengths hint ≡ lengths) }
        ensures back { IfErr result (λ e. e.0 ≡ lengths) }
    {
        match self.vectors.push_shown(rt, lengths) {
            Ok(place) => Ok(Hint { place }),
            Err(lengths) => Err((lengths, NoMemory)),
        }
    }

    /// The lengths that were posted with a hint of this board, in constant time and without waiting.
    ///
    /// ```text
    /// board.seen(&hint);    // 1, 0 and 1, where these were posted for `hint`
    /// ```
    pub fn seen(&self, hint: &Hint) -> &Lengths
        requires { IsHintOf self.now hint.now }
        ensures { result.now ≡ posted_lengths hint.now }
    {
        self.vectors.value(&hint.place)
    }

    /// The lengths at an index: priced, and one for each link. `None` where no vector is shown there. It takes constant time and
    /// never waits.
    ///
    /// ```text
    /// board.get(0);            // None, on a new board
    /// board.get(hint.at());    // Some: 1, 0 and 1, where these were posted for `hint`
    /// ```
    pub fn get(&self, at: u64) -> Option<&Lengths>
        ensures { IfSome result (λ lengths. AreHintLengths (hint_links self.now) lengths.now) }
    {
        self.vectors.get(at as usize)
    }
}
