// Decimal numerals, read.
ghost use Rattle.std.specs.Prelude.{◌≡◌, ◌+◌, ◌-◌, ◌*◌, ◌^◌, min, drop};
ghost use Rattle.octets.specs.Numerals.{digits, digits_at, numeral_at, capped};

use super::bytes::{byte_at, wide};

// A decimal numeral: the offset after its last digit, and its number, at most LARGEST.
#[derive(Clone, Copy)]
pub struct Decimal {
    pub end: usize,
    pub number: u64,
}

// The largest number that is told apart from larger ones.
const LARGEST: u64 = 18446744073709551615;

// A number up to this has room for one digit more, also while the digit is still a byte, which is up to 57.
const ROOMY: u64 = 1844674407370955155;

// The number with one digit more, or LARGEST where that is too large.
fn extended(number: u64, digit: u8) -> u64
    ensures { result ≡ min (number * 10 + digit) (2 ^ 64 - 1) }
{
    let d = digit as u64;
    if 1844674407370955161 < number {
        return LARGEST;
    }
    let tens = number * 10;
    if LARGEST - tens < d {
        LARGEST
    } else {
        tens + d
    }
}

// The digits from an offset on, after a number: for a number that one digit more may take past LARGEST.
// Stays beside `digits`: with one loop for both a walk of integers took 1.23 of the time.
fn long_digits(s: &[u8], at: usize, number: u64) -> Decimal
    ensures { result ≡ capped (digits number at (drop at s.now)) }
{
    let mut i = at;
    let mut n: u64 = number;
    loop {
        let b = byte_at(s, i);
        if b < b'0' {
            return Decimal { end: i, number: n };
        }
        if b'9' < b {
            return Decimal { end: i, number: n };
        }
        n = extended(n, b - b'0');
        i += 1;
    }
}

// The digits from an offset on.
fn digits(s: &[u8], at: usize) -> Decimal
    ensures { result ≡ capped (digits_at s.now at) }
{
    let mut i = at;
    let mut n: u64 = 0;
    loop {
        let b = byte_at(s, i);
        if b < b'0' {
            return Decimal { end: i, number: n };
        }
        if b'9' < b {
            return Decimal { end: i, number: n };
        }
        if ROOMY < n {
            return long_digits(s, i, n);
        }
        n = n * 10 + wide(b) - 48;
        i += 1;
    }
}

// A numeral with no leading zero: a first 0 is the whole of it.
pub fn numeral(s: &[u8], at: usize) -> Decimal
    ensures { result ≡ capped (numeral_at s.now at) }
{
    let zero = byte_at(s, at) == b'0';
    if zero {
        return Decimal {
            end: at + 1,
            number: 0,
        };
    }
    digits(s, at)
}
