ghost use Rattle.std.{specs.Prelude.{◌≡◌, ◌*◌, ◌<◌, ◌^◌}, specs.Int.◌∣◌};

use checked_fraction::gcd;

/// A value, which isn't negative, in lowest terms.
#[derive(Clone, Copy)]
pub(crate) struct Fraction {
    pub(crate) num: u128,
    pub(crate) den: u64,
    pub ghost positive: { 0 < den },
    pub ghost narrow: { den < 2 ^ 62 },
}

/// `value / den` in lowest terms.
pub(crate) fn fraction_of(value: u128, den: u64) -> Fraction
    requires some { 0 < den }
    requires narrow { den < 2 ^ 62 }
    ensures same { result.num * den ≡ value * result.den }
    ensures divides { result.den ∣ den }
{
    let common = gcd(value, den as u128);
    Fraction {
        num: value / common,
        den: (den as u128 / common) as u64,
    }
}
