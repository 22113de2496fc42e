// A decimal number from the bytes of a field. By hand: std's `parse` takes a `str`, allows a sign, and has no `most`.
ghost use Rattle.std.specs.Prelude.{◌≡◌, ◌≤◌, IfOk, IfSome};
ghost use Rattle.text.specs.Numbers.{number_of, value as value_of, at_most};

use crate::fault::Fault;

// The number that the digits of `s` stand for, at most `most`.
#[tactic(auto, unfolding(crate::specs::Numbers::number_of))]
pub fn parse(s: &[u8], most: u64) -> Result<u64, Fault>
    ensures value { result ≡ number_of s.now most }
    ensures bound { IfOk result (λ n. n ≤ most) }
{
    if s.is_empty() {
        return Err(Fault::Empty);
    }
    if !s.iter().all(|b| b.is_ascii_digit()) {
        return Err(Fault::NotDigit);
    }
    value(s, most).ok_or(Fault::TooLarge)
}

// The value of the digits of `s`, where it is at most `most`.
#[tactic(auto, using(crate::proofs::Laws::value_laws))]
fn value(s: &[u8], most: u64) -> Option<u64>
    ensures value { result ≡ at_most most (value_of s.now) }
    ensures bound { IfSome result (λ n. n ≤ most) }
{
    let mut value: u64 = 0;
    for b in s {
        let digit = u64::from(b.saturating_sub(b'0'));
        value = value.checked_mul(10)?.checked_add(digit)?;
        if most < value {
            return None;
        }
    }
    Some(value)
}
