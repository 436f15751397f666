ghost use Rattle.std.specs.Prelude.{◌≡◌, ◌+◌, ◌-◌, ◌*◌, ◌^◌, ◌<◌, ◌↔◌, ℕ, IsTrue};
ghost use Rattle.plan_checker.specs.inner.Mixed.{IsMixed};

/// A mixed number: a whole part and a rest over a denominator that goes with it. Numerators of 124 bits that are summed by the
/// thousands don't fit into 128 bits, but no whole part that matters is so large; one that is stays at the greatest number.
#[derive(Clone, Copy)]
pub struct Mixed {
    whole: u128,
    rest: u64,
}

impl Mixed {
    /// The number `num / den`.
    pub fn of(num: u128, den: u64) -> Mixed
        requires { 0 < den }
        ensures value { IsMixed den num result }
        ensures rest { result.rest < den }
    {
        Mixed {
            whole: num / den as u128,
            rest: (num % den as u128) as u64,
        }
    }

    /// The sum of two numbers over one denominator.
    pub fn plus(self, other: Mixed, den: u64) -> Mixed
        requires den { den < 2 ^ 62 }
        requires first { self.rest < den }
        requires second { other.rest < den }
        ensures rest { result.rest < den }
        ensures value { (n m : ℕ) → IsMixed den n self → IsMixed den m other → IsMixed den (n + m) result }
    {
        let whole = self.whole.saturating_add(other.whole);
        let rest = self.rest + other.rest;
        if rest < den {
            Mixed { whole, rest }
        } else {
            Mixed {
                whole: whole.saturating_add(1),
                rest: rest - den,
            }
        }
    }

    /// Whether it is a whole number.
    pub fn is(&self, whole: u128) -> bool
        requires { whole < 2 ^ 128 - 1 }
        ensures { (den n : ℕ) → IsMixed den n self.now → (IsTrue result ↔ (n ≡ whole * den)) }
    {
        self.whole == whole && self.rest == 0
    }

    /// Whether it is more than a whole number.
    pub fn exceeds(&self, whole: u128) -> bool
        requires { whole < 2 ^ 128 - 1 }
        ensures { (den n : ℕ) → IsMixed den n self.now → (IsTrue result ↔ (whole * den < n)) }
    {
        self.whole > whole || (self.whole == whole && self.rest > 0)
    }
}
