// Numbers of any length, spelt well first and in range second.
ghost use Rattle.std.specs.Prelude.{◌≡◌, pred, true, false, not, ◌&&◌, pos, negsuc, ◌≤ℤ◌, IfOk, MatchOption, ◌==◌};
ghost use Rattle.std.specs.Str.{all_ascii_digits};
ghost use Rattle.lexical.specs.Numbers.{spelt, spelt_signed, said, value, integer_of};
ghost use Rattle.fields.specs.Near.{Capped, Near};

use lexical::fault::{NumberFault, Place};

// The largest number of 32 bits: beyond it no range goes, and digits are no longer counted.
const MOST: u64 = 4294967295;

// What the digits say up to 32 bits, or some number beyond them; none where a byte is no digit.
fn digits(text: &[u8]) -> Option<u64>
    ensures { MatchOption result (all_ascii_digits text.now ≡ false) (λ n. (all_ascii_digits text.now ≡ true) × Capped text.now n) }
{
    let mut n = 0u64;
    // a loop: the step of a fold would be as long, with the early end inside it
    for b in text {
        let d = *b;
        if d < b'0' || d > b'9' {
            return None;
        }
        if n <= MOST {
            n = 10 * n + (d - b'0') as u64;
        }
    }
    Some(n)
}

// The same of digits with no zero in front.
fn magnitude(text: &[u8]) -> Option<u64>
    ensures { MatchOption result (spelt text.now ≡ false) (λ n. (spelt text.now ≡ true) × Capped text.now n) }
{
    match text {
        [] | [b'0', _, ..] => None,
        _ => digits(text),
    }
}

// The same of digits behind a minus sign, which do not say 0.
fn below_zero(text: &[u8]) -> Option<i64>
    ensures { MatchOption result ((spelt text.now && not (value 0 text.now == 0)) ≡ false) (λ z. ((spelt text.now && not (value 0 text.now == 0)) ≡ true) × Near z (negsuc (pred (value 0 text.now)))) }
{
    magnitude(text).filter(|n| *n != 0).map(|n| -(n as i64))
}

// What a well spelt number says, or a number beyond 32 bits on the same side of 0; none where it is not well spelt.
fn number(text: &[u8]) -> Option<i64>
    ensures { MatchOption result (spelt_signed text.now ≡ false) (λ z. (spelt_signed text.now ≡ true) × Near z (said text.now)) }
{
    match text {
        [b'-', rest @ ..] => below_zero(rest),
        _ => magnitude(text).map(|n| n as i64),
    }
}

// A number from `low` to `high`, which are numbers of 32 bits.
pub fn integer_at(text: &[u8], at: Place, low: i64, high: i64) -> Result<i64, NumberFault>
    requires least { (negsuc 2147483647 ≤ℤ low) × (low ≤ℤ pos 4294967295) }
    requires greatest { (negsuc 2147483647 ≤ℤ high) × (high ≤ℤ pos 4294967295) }
    ensures read { result ≡ integer_of low high at text.now }
    ensures within { IfOk result (λ z. (low ≤ℤ z) × (z ≤ℤ high)) }
{
    match number(text) {
        None => Err(NumberFault::Misspelt(at)),
        Some(z) if z < low || z > high => Err(NumberFault::OutOfRange(at)),
        Some(z) => Ok(z),
    }
}
