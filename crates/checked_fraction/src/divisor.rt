ghost use Rattle.std.{specs.Prelude.{◌≡◌, ◌<◌, ◌/◌, ◌^◌, IsTrue}, specs.Int.◌∣◌};

/// A divisor, with what its exact quotients are guessed by. Each guess is tested by one product,
/// which is far cheaper than a division of 128 bits.
#[derive(Clone, Copy)]
pub(crate) struct Divisor {
    pub(crate) value: u128,
    /// The value where it is below 2^64, or 0.
    word: u64,
    shift: u32,
    inverse: u64,
    pub ghost positive: { 0 < value },
    ghost one_word: { 0 < word → word ≡ value },
    ghost short_shift: { shift < 64 },
}

/// The inverse of an odd number modulo 2^64, by Newton's steps.
fn inverse_of(odd: u64) -> u64 {
    let mut inverse = odd.wrapping_mul(3) ^ 2;
    for _ in 0..4 {
        inverse = inverse.wrapping_mul(2u64.wrapping_sub(odd.wrapping_mul(inverse)));
    }
    inverse
}

impl Divisor {
    pub(crate) fn new(value: u128) -> Divisor
        requires { 0 < value }
        ensures { result.value ≡ value }
    {
        if value > u64::MAX as u128 {
            return Divisor {
                value,
                word: 0,
                shift: 0,
                inverse: 0,
            };
        }
        let word = value as u64;
        let shift = word.trailing_zeros();
        Divisor {
            value,
            word,
            shift,
            inverse: inverse_of(word >> shift),
        }
    }

    /// The quotient of `size`, if it is exact and below 2^64.
    fn guess(&self, size: u128) -> u64 {
        let low = (size >> self.shift) % (1 << 64);
        (low as u64).wrapping_mul(self.inverse)
    }

    /// Whether `size` is surely a multiple.
    pub(crate) fn divides(&self, size: u128) -> bool
        ensures { IsTrue result → self.now.value ∣ size }
    {
        if self.value == 1 {
            return true;
        }
        self.word != 0 && self.guess(size) as u128 * self.word as u128 == size
    }

    /// `size` divided, rounded down.
    pub(crate) fn quotient(&self, size: u128) -> u128
        ensures { result ≡ size / self.now.value }
    {
        if self.value == 1 {
            return size;
        }
        let guess = self.guess(size) as u128;
        if self.word != 0 && guess * self.word as u128 == size {
            return guess;
        }
        size / self.value
    }
}
