ghost use Rattle.std.specs.Prelude.{◌≡◌, ◌+◌, ◌<◌, ◌≤◌, ◌^◌, ◌+ℤ◌, ◌-ℤ◌, ◌*ℤ◌, ◌/◌, ◌%◌, ◌<ℤ◌, ◌≤ℤ◌, ◌↔◌, pos, unsigned_abs, IsTrue};
ghost use Rattle.checked_fraction.{specs.Rows.IsNarrow, specs.Totals.{total, IsExact, HasRoom}};

/// A running sum of products of narrow numbers, as `high * 2^62 + low`. It need not fit into 128 bits:
/// there is room for 2^62 products at least. It takes 32 bytes, and each call a fixed number of steps and no memory.
#[derive(Clone, Copy)]
pub struct Sum {
    high: i128,
    low: u128,
}

fn widen(a: i64) -> i128
    ensures { result ≡ a }
{
    a as i128
}

/// The product of narrow numbers, each below 2^62 in absolute value. It takes constant time.
pub fn product(a: &i64, b: &i64) -> i128
    requires a { IsNarrow a.now }
    requires b { IsNarrow b.now }
    ensures value { result ≡ a.now *ℤ b.now }
    ensures bound { unsigned_abs result < 2 ^ 124 }
{
    widen(*a) * widen(*b)
}

fn small_product(a: &i64, b: &i64) -> i128
    requires a { IsNarrow a.now }
    requires b { unsigned_abs b.now ≤ 2 ^ 14 }
    ensures value { result ≡ a.now *ℤ b.now }
    ensures bound { unsigned_abs result ≤ 2 ^ 76 }
{
    widen(*a) * widen(*b)
}

/// How often 2^62 goes into a size.
fn high_part(size: &u128) -> i64
    requires { size.now < 2 ^ 76 }
    ensures value { result ≡ pos (size.now / 2 ^ 62) }
    ensures bound { unsigned_abs result ≤ 2 ^ 14 }
{
    (*size / (1 << 62)) as i64
}

/// What is left of it.
fn low_part(size: &u128) -> i64
    ensures value { result ≡ pos (size.now % 2 ^ 62) }
    ensures narrow { IsNarrow result }
{
    (*size % (1 << 62)) as i64
}

impl Sum {
    /// The sum of no products.
    /// No call of a sum asks for memory, and each takes constant time.
    pub fn new() -> Sum
        ensures high { result.high ≡ pos 0 }
        ensures low { result.low ≡ 0 }
    {
        Sum { high: 0, low: 0 }
    }

    fn raise(&mut self, size: u128)
        requires room { HasRoom self.old }
        requires bound { size < 2 ^ 124 }
        ensures total { total self.new ≡ total self.old +ℤ pos size }
        ensures high { unsigned_abs self.new.high ≤ unsigned_abs self.old.high + 2 ^ 62 }
        ensures low { self.new.low ≤ self.old.low + 2 ^ 62 }
    {
        self.high += (size / (1 << 62)) as i128;
        self.low += size % (1 << 62);
    }

    fn lower(&mut self, size: u128)
        requires room { HasRoom self.old }
        requires bound { size < 2 ^ 124 }
        ensures total { total self.new ≡ total self.old -ℤ pos size }
        ensures high { unsigned_abs self.new.high ≤ unsigned_abs self.old.high + 2 ^ 62 }
        ensures low { self.new.low ≤ self.old.low + 2 ^ 62 }
    {
        self.high -= (size / (1 << 62)) as i128 + 1;
        self.low += (1 << 62) - size % (1 << 62);
    }

    /// Adds `a * b`.
    pub fn add(&mut self, a: &i64, b: &i64)
        requires room { HasRoom self.old }
        requires a { IsNarrow a.now }
        requires b { IsNarrow b.now }
        ensures total { total self.new ≡ total self.old +ℤ a.now *ℤ b.now }
        ensures high { unsigned_abs self.new.high ≤ unsigned_abs self.old.high + 2 ^ 62 }
        ensures low { self.new.low ≤ self.old.low + 2 ^ 62 }
    {
        let product = product(a, b);
        if product < 0 {
            self.lower(product.unsigned_abs());
        } else {
            self.raise(product.unsigned_abs());
        }
    }

    /// Takes `a * b` away.
    pub fn subtract(&mut self, a: &i64, b: &i64)
        requires room { HasRoom self.old }
        requires a { IsNarrow a.now }
        requires b { IsNarrow b.now }
        ensures total { total self.new ≡ total self.old -ℤ a.now *ℤ b.now }
        ensures high { unsigned_abs self.new.high ≤ unsigned_abs self.old.high + 2 ^ 62 }
        ensures low { self.new.low ≤ self.old.low + 2 ^ 62 }
    {
        let product = product(a, b);
        if product < 0 {
            self.raise(product.unsigned_abs());
        } else {
            self.lower(product.unsigned_abs());
        }
    }

    /// Adds `a * 2^62`.
    fn raise_high(&mut self, a: &i128)
        requires high { unsigned_abs self.old.high ≤ 2 ^ 120 }
        requires a { unsigned_abs a.now ≤ 2 ^ 76 }
        ensures high { self.new.high ≡ self.old.high +ℤ a.now }
        ensures low { self.new.low ≡ self.old.low }
    {
        self.high += *a;
    }

    /// Takes `a * 2^62` away.
    fn lower_high(&mut self, a: &i128)
        requires high { unsigned_abs self.old.high ≤ 2 ^ 120 }
        requires a { unsigned_abs a.now ≤ 2 ^ 76 }
        ensures high { self.new.high ≡ self.old.high -ℤ a.now }
        ensures low { self.new.low ≡ self.old.low }
    {
        self.high -= *a;
    }

    /// Adds `a * size`.
    fn raise_wide(&mut self, a: &i64, size: &u128)
        requires high { unsigned_abs self.old.high ≤ 2 ^ 119 }
        requires low { self.old.low ≤ 2 ^ 119 }
        requires a { IsNarrow a.now }
        requires size { size.now < 2 ^ 76 }
        ensures total { total self.new ≡ total self.old +ℤ a.now *ℤ pos size.now }
        ensures high { unsigned_abs self.new.high ≤ unsigned_abs self.old.high + 2 ^ 77 }
        ensures low { self.new.low ≤ self.old.low + 2 ^ 62 }
    {
        self.raise_high(&small_product(a, &high_part(size)));
        self.add(a, &low_part(size));
    }

    /// Takes `a * size` away.
    fn lower_wide(&mut self, a: &i64, size: &u128)
        requires high { unsigned_abs self.old.high ≤ 2 ^ 119 }
        requires low { self.old.low ≤ 2 ^ 119 }
        requires a { IsNarrow a.now }
        requires size { size.now < 2 ^ 76 }
        ensures total { total self.new ≡ total self.old -ℤ a.now *ℤ pos size.now }
        ensures high { unsigned_abs self.new.high ≤ unsigned_abs self.old.high + 2 ^ 77 }
        ensures low { self.new.low ≤ self.old.low + 2 ^ 62 }
    {
        self.lower_high(&small_product(a, &high_part(size)));
        self.subtract(a, &low_part(size));
    }

    /// Adds `a * b` of a wider `b`, below 2^76 in absolute value.
    pub fn add_wide(&mut self, a: &i64, b: &i128)
        requires high { unsigned_abs self.old.high ≤ 2 ^ 119 }
        requires low { self.old.low ≤ 2 ^ 119 }
        requires a { IsNarrow a.now }
        requires b { unsigned_abs b.now < 2 ^ 76 }
        ensures total { total self.new ≡ total self.old +ℤ a.now *ℤ b.now }
        ensures high { unsigned_abs self.new.high ≤ unsigned_abs self.old.high + 2 ^ 77 }
        ensures low { self.new.low ≤ self.old.low + 2 ^ 62 }
    {
        if *b < 0 {
            self.lower_wide(a, &b.unsigned_abs());
        } else {
            self.raise_wide(a, &b.unsigned_abs());
        }
    }

    /// How often 2^62 goes into the sum, rounded down.
    fn carried(&self) -> i128
        requires { HasRoom self.now }
        ensures { result ≡ self.now.high +ℤ pos (self.now.low / 2 ^ 62) }
    {
        self.high + (self.low / (1 << 62)) as i128
    }

    /// What is left of the sum.
    fn rest(&self) -> u128
        ensures { result ≡ self.now.low % 2 ^ 62 }
    {
        self.low % (1 << 62)
    }

    /// The sum, or none where it is 2^124 or more in absolute value; -2^124 itself is given.
    pub fn within(&self) -> Option<i128>
        requires { HasRoom self.now }
        ensures { IsExact (total self.now) result }
    {
        let carried = self.carried();
        let limit = 1i128 << 62;
        if carried < -limit || limit <= carried {
            return None;
        }
        Some(carried * limit + self.rest() as i128)
    }

    /// The sum, which is 0 or more and below 2^124.
    pub fn size(&self) -> u128
        requires room { HasRoom self.now }
        requires positive { pos 0 ≤ℤ total self.now }
        requires low { unsigned_abs (total self.now) < 2 ^ 124 }
        ensures { pos result ≡ total self.now }
    {
        self.carried().unsigned_abs() * (1 << 62) + self.rest()
    }

    /// Whether the sum is below 0.
    pub fn is_negative(&self) -> bool
        requires { HasRoom self.now }
        ensures { IsTrue result ↔ (total self.now <ℤ pos 0) }
    {
        self.carried() < 0
    }
}
