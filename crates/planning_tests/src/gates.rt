//! Gates that hold callers.
use outside_io::{Gate, RoundFigures, TreeFigures};
use std::sync::atomic::{AtomicU64, Ordering};
use std::thread;

/// How often a held caller looks at most whether it may go on. After that it goes on by itself, and the journal shows it.
const LOOKS: u64 = 1 << 22;

fn wait_for(flag: &AtomicU64) {
    for _ in 0..LOOKS {
        if flag.load(Ordering::SeqCst) != 0 {
            return;
        }
        thread::yield_now();
    }
}

fn raise(flag: &AtomicU64) {
    flag.store(1, Ordering::SeqCst);
}

/// An edit of one caller waits until another caller has edited.
#[derive(Drop)]
pub struct LateEdit {
    held: u32,
    by: u32,
    edited: AtomicU64,
}

impl LateEdit {
    pub fn new(held: u32, by: u32) -> LateEdit {
        LateEdit {
            held,
            by,
            edited: AtomicU64::new(0),
        }
    }
}

impl Gate for LateEdit {
    fn editing(&self, caller: u32) {
        if caller == self.held {
            wait_for(&self.edited);
        }
    }

    fn edited(&self, caller: u32) {
        if caller == self.by {
            raise(&self.edited);
        }
    }

    fn before(&self, _caller: u32, _state: u32) {}

    fn after(&self, _caller: u32, _state: u32) {}

    fn rounded(&self, _caller: u32, _figures: RoundFigures) {}

    fn split(&self, _figures: TreeFigures) {}
}

/// An edit of caller 2 waits until caller 1 has begun with state 0 in a round. Caller 1 waits after each state until caller 2 has edited.
#[derive(Drop)]
pub struct EditAmidPlan {
    begun: AtomicU64,
    edited: AtomicU64,
}

impl EditAmidPlan {
    pub fn new() -> EditAmidPlan {
        EditAmidPlan {
            begun: AtomicU64::new(0),
            edited: AtomicU64::new(0),
        }
    }
}

impl Gate for EditAmidPlan {
    fn editing(&self, caller: u32) {
        if caller == 2 {
            wait_for(&self.begun);
        }
    }

    fn edited(&self, caller: u32) {
        if caller == 2 {
            raise(&self.edited);
        }
    }

    fn before(&self, caller: u32, state: u32) {
        if caller == 1 && state == 0 {
            raise(&self.begun);
        }
    }

    fn after(&self, caller: u32, _state: u32) {
        if caller == 1 {
            wait_for(&self.edited);
        }
    }

    fn rounded(&self, _caller: u32, _figures: RoundFigures) {}

    fn split(&self, _figures: TreeFigures) {}
}
