// Integers from 1 to a bound.
ghost use Rattle.std.specs.Prelude.{◌≡◌, ◌+◌, ◌≤◌, length, Some, IfSome};
ghost use Rattle.octets.specs.Bytes.{byte_at};
ghost use Rattle.octets.specs.Numerals.{digits_at};
ghost use Rattle.bencode.specs.Integers.{BoundedDigits, integer_at, after_positive};

use super::classes::Classes;
use super::digits::digits_end;
use super::integers::integer;
use octets::byte_at;

// At most this many digits are read at once.
const TEN: usize = 10;

// An `i`, TEN digits and the byte after them. Nearer to the end of the bytes `integer` is as good.
const ROOM: usize = 12;

// Above any number of fewer digits.
const ABOVE_FEWER: u64 = 1000000000;

// What a one counts as the second of TEN digits.
const SECOND: u64 = 100000000;

// Digits, by the offset after them and a number above theirs.
#[derive(Clone, Copy)]
pub struct Bounded {
    pub end: usize,
    pub above: u64,
}

// The digits from an offset on, or TEN of them: no test whether the bytes end. What is above TEN is told by the first two, with
// one more for the others; each of the two is 48 too large as a byte.
fn ten_digits(s: &[u8], from: usize, classes: &Classes) -> Bounded
    requires { from + 10 ≤ length s.now }
    ensures { (from ≤ result.end) × (result.end ≤ from + 10) × (byte_at s.now result.end ≡ 101 → BoundedDigits s.now from result.end result.above (digits_at s.now from)) }
{
    let end = digits_end::<TEN>(s, from, classes);
    if end < from + TEN {
        return Bounded {
            end,
            above: ABOVE_FEWER,
        };
    }
    Bounded {
        end,
        above: (u64::from(s[from]) * 10 + u64::from(s[from + 1]) - 527) * SECOND,
    }
}

// The offset after the integer at an offset that is from 1 to another, if it has few digits; none says nothing.
// Stays beside `plain_end`: of the digits that asks where they end, this a number above them.
pub fn plain_positive(s: &[u8], at: usize, high: u64, classes: &Classes) -> Option<usize>
    ensures { IfSome result (λ end. after_positive high (integer_at s.now at) ≡ Some end) }
{
    if byte_at(s, at) != b'i' || s.len() - at < ROOM {
        return None;
    }
    let from = at + 1;
    let d = ten_digits(s, from, classes);
    let end = d.end;
    if s[end] != b'e' || s[from] == b'0' || end == from || high < d.above {
        return None;
    }
    Some(end + 1)
}

// The offset after the integer at an offset, if it is from 1 to another.
pub fn after_positive(s: &[u8], at: usize, high: u64) -> Option<usize>
    ensures { result ≡ after_positive high (integer_at s.now at) }
{
    let number = integer(s, at).ok()?;
    if number.value < 1 || high < number.value.unsigned_abs() {
        return None;
    }
    Some(number.end)
}
