ghost use Rattle.std.{specs.Prelude.{◌≡◌, ◌+◌, ◌-◌, ◌*◌, ◌^◌, ◌<◌, ◌≤◌, ◌&&◌, IsTrue, MatchOption}, specs.List.list_all};
ghost use Rattle.snd_tokens.specs.Digits.{are_digits, is_digit, number_after};

fn is_digit(b: u8) -> bool
    ensures { result ≡ is_digit b }
{
    b.is_ascii_digit()
}

fn all_digits(bytes: &[u8]) -> bool
    ensures { result ≡ list_all is_digit bytes.now }
{
    bytes.iter().all(|b| is_digit(*b))
}

/// Whether a word is one or more digits, and nothing else. It goes over the word once, and asks for no memory.
pub fn are_digits(bytes: &[u8]) -> bool
    ensures { result ≡ are_digits bytes.now }
{
    !bytes.is_empty() && all_digits(bytes)
}

/// The number with one more digit after it, or None where that reaches the limit.
fn with_digit(number: u128, digit: u8, limit: u128) -> Option<u128>
    requires { 48 ≤ digit }
    ensures { MatchOption result (limit ≤ number * 10 + (digit - 48))
        (λ n. (n ≡ number * 10 + (digit - 48)) × (n < limit)) }
{
    let next = number
        .checked_mul(10)?
        .checked_add(u128::from(digit - b'0'))?;
    if next < limit { Some(next) } else { None }
}

/// The number with these digits after it, or None where that reaches the limit.
pub(crate) fn number_below(number: u128, digits: &[u8], limit: u128) -> Option<u128>
    requires digits { IsTrue (list_all is_digit digits.now) }
    requires below { number < limit }
    ensures { MatchOption result (limit ≤ number_after number digits.now)
        (λ n. (n ≡ number_after number digits.now) × (n < limit)) }
{
    let mut so_far = number;
    for digit in digits {
        so_far = with_digit(so_far, *digit, limit)?;
    }
    Some(so_far)
}
