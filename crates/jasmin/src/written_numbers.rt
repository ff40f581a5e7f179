//! Numbers.
ghost use Rattle.std.specs.Prelude.{◌≡◌, ◌≤◌, ◌≤ℤ◌, ◌^◌, None, Some, IfOk, MatchOption, MatchResult};
ghost use Rattle.std.specs.List.{list_all};
ghost use Rattle.model.specs.Texts.Numbers.{is_positive_numeral, is_digit, decimal, natural_of, natural_to, number_in};

use crate::errors::Fault;

/// A number without a sign, up to `high`: 0, or digits of which the first isn't 0.
pub fn natural(word: &[u8], high: u16) -> Result<u16, Fault>
    ensures { MatchResult result (λ n. natural_to high word.now ≡ Some n) (λ _. natural_to high word.now ≡ None) }
{
    if !(word == b"0".as_slice() || is_positive_numeral(word)) {
        return Err(fault_of(word));
    }
    match decimal(word) {
        Some(n) if n <= u64::from(high) => Ok(n as u16),
        _ => Err(Fault::Range),
    }
}

/// A word that is no number without a sign is out of range where it is one with a sign.
fn fault_of(word: &[u8]) -> Fault {
    match word {
        [b'-', digits @ ..] if is_positive_numeral(digits) => Fault::Range,
        _ => Fault::Operand,
    }
}

/// A number from `low` to `high`: a minus sign may stand before a number without a sign that isn't 0.
pub fn integer(word: &[u8], low: i64, high: i64) -> Result<i64, Fault>
    ensures number { MatchResult result (λ z. number_in low high word.now ≡ Some z) (λ _. number_in low high word.now
        ≡ None) }
    ensures bounds { IfOk result (λ z. (low ≤ℤ z) × (z ≤ℤ high)) }
{
    let value = match word {
        [b'-', digits @ ..] if is_positive_numeral(digits) => {
            decimal(digits).and_then(|n| 0i64.checked_sub_unsigned(n))
        }
        [b'-', ..] => return Err(Fault::Operand),
        _ if word == b"0".as_slice() || is_positive_numeral(word) => {
            decimal(word).and_then(|n| 0i64.checked_add_unsigned(n))
        }
        _ => return Err(Fault::Operand),
    };
    match value {
        Some(z) if low <= z && z <= high => Ok(z),
        _ => Err(Fault::Range),
    }
}

/// Whether a word is digits of which the first isn't 0.
fn is_positive_numeral(word: &[u8]) -> bool
    ensures { result ≡ is_positive_numeral word.now }
{
    match word {
        [first, rest @ ..] => is_digit(*first) && *first != b'0' && are_digits(rest),
        [] => false,
    }
}

/// Whether each byte is a digit.
fn are_digits(bytes: &[u8]) -> bool
    ensures { result ≡ list_all is_digit bytes.now }
{
    bytes.iter().all(|b| is_digit(*b))
}

fn is_digit(b: u8) -> bool
    ensures { result ≡ is_digit b }
{
    matches!(b, b'0'..=b'9')
}

/// The value of digits, if it fits.
#[tactic(auto, using(crate::proofs::NumberLemmas::one_more))]
fn decimal(digits: &[u8]) -> Option<u64>
    ensures { MatchOption result (2 ^ 64 ≤ decimal digits.now) (λ n. decimal digits.now ≡ n) }
{
    let mut value = 0u64;
    for d in digits {
        let digit = u64::from(d.saturating_sub(b'0'));
        match value.checked_mul(10) {
            Some(tens) => match tens.checked_add(digit) {
                Some(more) => value = more,
                None => return None,
            },
            None => return None,
        }
    }
    Some(value)
}
