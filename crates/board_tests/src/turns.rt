//! A test of the turns at a desk.
use net_core::List;
use std::alloc::Global;
use std::sync::Wait;
use std::thread::Threads;
use turn_lock::example::{Sheet, note_by_two};
use turn_lock::{Chronicle, Desk};

/// Two threads note 1 and 2 on a sheet, each this many times. The owner of the sheet, how many notes it has, and their sum.
fn noted_by_two<R: Threads + Wait + Sync>(
    rt: &R,
    alloc: Global,
    turns: u32,
) -> Option<(u64, u64, u64)> {
    let sheet = Sheet {
        owner: 7,
        notes: List::new(alloc),
    };
    let (desk, pass) = Desk::new(alloc, sheet).ok()?;
    let sheet = note_by_two(rt, desk, pass, turns);
    let notes = sheet.notes.items().iter();
    let sum = notes.fold(0u64, |sum, note| sum.wrapping_add(*note));
    Some((sheet.owner, sheet.count(), sum))
}

#[test]
fn two_threads_take_turns_at_one_sheet(rt: HostRuntime) {
    assert!(rt; noted_by_two(&rt, rt.alloc(), 100) == Some((7, 200, 300)));
}
