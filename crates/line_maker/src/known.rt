use crate::numbers::Numbers;
use line_check::Tested;
use master_bound::Multiplier;

/// Lines that were tested, with the numbers of each.
#[derive(Clone, Copy)]
pub(crate) struct Known<'a> {
    pub tested: &'a [Tested],
    pub numbers: &'a [Numbers],
}

impl<'a> Known<'a> {
    /// What a line needs; 0 past the last one.
    pub(crate) fn need_of(&self, i: u32) -> u128 {
        let place = i as usize;
        if place < self.numbers.len() {
            self.numbers[place].need
        } else {
            0
        }
    }
}
