ghost use Rattle.std.specs.Prelude.{◌≡◌, ◌≤◌, ◌<◌, ◌+◌, [], IfOk, length};
ghost use Rattle.plan_terms.specs.Terms.{case_of, IsSurvivable};
ghost use Rattle.separator.{specs.Separators.cuts_after, specs.inner.Working.{AreAnswersBelow, PoolsBelow}};

use crate::admission::spot_of;
use crate::answers::StateAnswer;
use crate::question::StateQuestion;
use crate::separate::Separate;
use crate::some_states::{answer_some, answer_state};
use crate::warm_start::KnownStates;
use cut_pool::Board;
use metric_cut::Cut;
use net_core::{Caps, Demands, Instance, List, NoMemory, StateId};
use outside_io::RoundFigures;
use plan_types::Spot;
use std::alloc::Global;
use std::snapshot::Snapshot as Remembered;
use turn_lock::Chronicle;

/// What a separator over a board begins with: the board's opening demands, and the number of its entries. It is there for contracts.
#[derive(Drop)]
pub struct Beginning {
    pub opening: Demands,
    pub entries: u64,
}

/// A separator on one thread, which takes the states one after another. Its history is that of its board.
#[derive(Drop)]
pub struct OneByOne<'a> {
    board: Board<'a>,
    alloc: Global,
    began: Remembered<u64>,
    known: KnownStates,
    /// How little room sets of nodes are violated with; all of it at the first round.
    level: u32,
    /// The state that was violated last when states were asked in a ring. The next ring begins with it.
    first: u32,
    pub ghost began_before: { began.value ≤ length board.entries },
}

impl<'a> OneByOne<'a> {
    ghost use Rattle.separator.specs.OneByOnes.{board_seen};

    /// A separator over a board. Its own entries are those that the board gets from now on. It takes constant time, and asks for no memory.
    pub fn new(alloc: Global, board: Board<'a>) -> OneByOne<'a>
        ensures board { result.board ≡ board.entry }
        ensures own { (board_seen result).own ≡ [] }
    {
        let began = Remembered::of(&board.count());
        OneByOne {
            board,
            alloc,
            began,
            known: KnownStates::new(alloc),
            level: 0,
            first: 0,
        }
    }

    /// The board, as the separator leaves it. It takes constant time.
    pub fn into_board(self) -> Board<'a>
        ensures { result ≡ self.entry.board }
    {
        self.board
    }
}

/// What is found of each state, the cuts admitted to the board's pool.
fn answer_states(
    alloc: Global,
    instance: &Instance,
    caps: &Caps,
    board: &mut Board,
    known: &mut KnownStates,
) -> Result<List<StateAnswer>, NoMemory>
    requires net { board.old.net.now ≡ instance.now.net.now }
    requires listed { board.old.states.now ≡ instance.now.states.now }
    requires survivable { IsSurvivable (case_of instance.now) }
    requires scale { 0 < caps.now.scale }
    requires caps { length caps.now.nums ≡ length instance.now.net.now.links }
    ensures pools { PoolsBelow (case_of instance.now) caps.now (length instance.now.states.now.listed + 1) board.old board.new
        (cuts_after board.old.entries board.new.entries) }
    ensures answers { IfOk result (AreAnswersBelow (case_of instance.now) caps.now (length instance.now.states.now.listed + 1)
        board.new.entries (cuts_after board.old.entries board.new.entries)) }
{
    let question = StateQuestion::SetsFirst;
    let mut answers = List::new(alloc);
    for s in 0..instance.states.count() {
        answers.push(answer_state(instance, StateId(s), caps, question, board, known)?)?;
    }
    Ok(answers)
}

impl<'a> Separate for OneByOne<'a> {
    ghost use Rattle.separator.specs.OneByOnes.{board_frame, board_seen};
    ghost use Rattle.separator.specs.inner.Seen.{board_is_seen};

    type Mark = Beginning;

    ghost frame = { board_frame };

    ghost seen_of = { board_seen };

    ghost seen = { λ s. board_is_seen s.began.value s.board.net.now s.board.states.now s.board.opening.value
        s.board.entries s.board.book.demands s.board.book.version s.board.pool s.board.few s.board.few_cuts s.board.stands };

    fn admit(&mut self, cut: Cut) -> Result<Spot, NoMemory> {
        spot_of(&mut self.board, cut)
    }

    fn separate(
        &mut self,
        instance: &Instance,
        caps: &Caps,
    ) -> Result<List<StateAnswer>, NoMemory> {
        self.level = 0;
        answer_states(self.alloc, instance, caps, &mut self.board, &mut self.known)
    }

    fn separate_until_cut(
        &mut self,
        instance: &Instance,
        caps: &Caps,
    ) -> Result<List<StateAnswer>, NoMemory> {
        answer_some(
            self.alloc,
            instance,
            caps,
            &mut self.level,
            &mut self.first,
            &mut self.board,
            &mut self.known,
        )
    }

    fn note(&self, _figures: RoundFigures) {}
}
