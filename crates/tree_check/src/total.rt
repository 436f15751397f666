ghost use Rattle.std.specs.Prelude.{◌≡◌, ◌+◌, ◌<◌, ◌≤◌, ◌^◌, ◌↔◌, ◌⊎◌, IsTrue, MatchOption};
ghost use Rattle.tree_check.{specs.BoxValues.AreNear, specs.inner.Totals.of_parts};

/// A sum of numbers, as `high * 2^64 + low`. It may be more than 128 bits hold.
#[derive(Clone, Copy)]
pub(crate) struct Total {
    high: u128,
    low: u128,
    pub ghost narrow: { low < 2 ^ 64 },
}

impl Total {
    /// The sum of no numbers.
    pub(crate) fn new() -> Total
        ensures total { of_parts result.high result.low ≡ 0 }
        ensures high { result.high ≡ 0 }
    {
        Total { high: 0, low: 0 }
    }

    /// The sum with one number more.
    pub(crate) fn plus(self, n: u128) -> Total
        requires { self.high ≤ 2 ^ 120 }
        ensures total { of_parts result.high result.low ≡ of_parts self.high self.low + n }
        ensures high { result.high ≤ self.high + 2 ^ 64 }
    {
        let low = self.low + n % (1 << 64);
        Total {
            high: self.high + n / (1 << 64) + low / (1 << 64),
            low: low % (1 << 64),
        }
    }

    /// How much the sum is beyond another; none where it is less, or 2^126 or more beyond it.
    pub(crate) fn beyond(&self, other: &Total) -> Option<u128>
        ensures { MatchOption result ((of_parts self.now.high self.now.low < of_parts other.now.high other.now.low)
            ⊎ (of_parts other.now.high other.now.low + 2 ^ 126 ≤ of_parts self.now.high self.now.low))
            (λ d. (of_parts self.now.high self.now.low ≡ of_parts other.now.high other.now.low + d) × (d < 2 ^ 126)) }
    {
        if self.high < other.high || self.high - other.high > 1 << 62 {
            return None;
        }
        let whole = (self.high - other.high) * (1 << 64) + self.low;
        if whole < other.low || whole - other.low >= 1 << 126 {
            return None;
        }
        Some(whole - other.low)
    }

    /// Whether two sums are less than 2^126 apart.
    pub(crate) fn is_near(&self, other: &Total) -> bool
        ensures { IsTrue result ↔ AreNear (of_parts self.now.high self.now.low) (of_parts other.now.high other.now.low) }
    {
        self.beyond(other).is_some() || other.beyond(self).is_some()
    }
}
