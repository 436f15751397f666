/// How many digits after the point are counted; further ones are cut off.
const PLACES: u32 = 3;

/// A whole number of thousandths, as far as its digits are read.
#[derive(Clone, Copy)]
struct Digits {
    number: i32,
    /// How many digits have come after the point; none where it hasn't come.
    after: Option<u32>,
    is_empty: bool,
}

impl Digits {
    /// A number with one digit more; none where it is too great.
    fn with_digit(self, digit: u8) -> Option<Digits> {
        let after = match self.after {
            Some(PLACES) => return Some(self),
            Some(n) => Some(n.saturating_add(1)),
            None => None,
        };
        let tens = self.number.checked_mul(10)?;
        Some(Digits {
            number: tens.checked_add(i32::from(digit))?,
            after,
            is_empty: false,
        })
    }

    /// A number with one byte more; none where it is no number.
    fn with_byte(self, byte: u8) -> Option<Digits> {
        match (byte, self.after) {
            (b'.', None) => Some(Digits {
                after: Some(0),
                ..self
            }),
            (b'0'..=b'9', _) => self.with_digit(byte - b'0'),
            _ => None,
        }
    }

    /// The number in thousandths; none where it has no digit or is too great.
    fn thousandths(self) -> Option<i32> {
        if self.is_empty {
            return None;
        }
        match self.after {
            None | Some(0) => self.number.checked_mul(1000),
            Some(1) => self.number.checked_mul(100),
            Some(2) => self.number.checked_mul(10),
            Some(_) => Some(self.number),
        }
    }
}

/// The number that digits write, with at most one point among them, in thousandths.
fn unsigned(word: &[u8]) -> Option<i32> {
    let mut digits = Digits {
        number: 0,
        after: None,
        is_empty: true,
    };
    for byte in word {
        digits = digits.with_byte(*byte)?;
    }
    digits.thousandths()
}

/// The decimal that a word writes, with or without a sign, in thousandths, cut off after three places; none where it is no decimal, or
/// above 2,147,483.647 or below its negative. It takes time in the word.
pub fn thousandths(word: &[u8]) -> Option<i32> {
    match word {
        [b'-', rest @ ..] => unsigned(rest)?.checked_neg(),
        [b'+', rest @ ..] => unsigned(rest),
        _ => unsigned(word),
    }
}
