use outside_io::{Gate, RoundFigures, TreeFigures};
use std::sync::atomic::{AtomicU64, Ordering};
use std::thread;

/// How often a held worker looks at most whether it may go on. After that it goes on by itself.
const LOOKS: u64 = 1 << 22;

/// Keeps the worker of one state of a round waiting until another worker has solved another state. A test shows with it that workers run in
/// parallel; the program itself holds nobody.
#[derive(Drop)]
pub struct Hold {
    /// The state whose worker waits, and the state that it waits for.
    pair: Option<(u32, u32)>,
    /// How many states are solved.
    solved: AtomicU64,
    /// 1 once the state that is waited for is solved.
    let_go: AtomicU64,
    /// 1 once the waiting worker has noticed it.
    kept: AtomicU64,
}

impl Hold {
    /// A hold on nobody. It takes constant time and no memory.
    pub fn open() -> Hold {
        Hold::of(None)
    }

    /// A hold on a state until the other one is solved. It takes constant time and no memory.
    pub fn until(state: u32, other: u32) -> Hold {
        Hold::of(Some((state, other)))
    }

    fn of(pair: Option<(u32, u32)>) -> Hold {
        Hold {
            pair,
            solved: AtomicU64::new(0),
            let_go: AtomicU64::new(0),
            kept: AtomicU64::new(0),
        }
    }

    /// Whether the other state was solved while the worker of the held state waited for it. It takes constant time.
    pub fn was_kept(&self) -> bool {
        self.kept.load(Ordering::SeqCst) != 0
    }

    /// How many states workers have solved. It takes constant time.
    pub fn solved(&self) -> u64 {
        self.solved.load(Ordering::SeqCst)
    }
}

/// A hold keeps workers waiting, and never a caller.
impl Gate for Hold {
    fn editing(&self, _caller: u32) {}

    fn edited(&self, _caller: u32) {}

    fn before(&self, _caller: u32, state: u32) {
        if !self.pair.is_some_and(|(held, _)| held == state) {
            return;
        }
        for _ in 0..LOOKS {
            if self.let_go.load(Ordering::SeqCst) != 0 {
                self.kept.store(1, Ordering::SeqCst);
                return;
            }
            thread::yield_now();
        }
    }

    fn after(&self, _caller: u32, state: u32) {
        self.solved.fetch_add(1, Ordering::SeqCst);
        if self.pair.is_some_and(|(_, other)| other == state) {
            self.let_go.store(1, Ordering::SeqCst);
        }
    }

    fn rounded(&self, _caller: u32, _figures: RoundFigures) {}

    fn split(&self, _figures: TreeFigures) {}
}
