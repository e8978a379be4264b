// Integers: `i`, a sign if it is negative, decimal digits and `e`, in the range of 64 bits.
ghost use Rattle.std.specs.Prelude.{◌≡◌, ◌^◌, ◌≤◌, pos, neg_ℤ, nat_abs};
ghost use Rattle.bencode.specs.Fault.{after_of};
ghost use Rattle.bencode.specs.Integers.{signed, in_range, integer_from, integer_at, number_end};

use super::fault::{Cause, Fault};
use octets::{byte_at, numeral};

// An integer, by its value and the offset after it.
#[derive(Clone, Copy)]
pub struct Number {
    pub value: i64,
    pub end: usize,
}

impl Number {
    // The largest integer.
    pub const LARGEST: u64 = 9223372036854775807;
    // How far the smallest is below zero.
    pub const LOWEST: u64 = 9223372036854775808;
}

// The negative of a number.
fn negated(n: u64) -> i64
    requires { n ≤ 2 ^ 63 }
    ensures { result ≡ neg_ℤ (pos n) }
{
    0i64.wrapping_sub_unsigned(n)
}

// The integer of a sign and a number, whose `i` is at `at`, where it is in the range.
// Stays: the sign stands apart, since an i64 of both would be in the range already.
fn in_range(at: usize, negative: bool, number: u64, end: usize) -> Result<Number, Fault>
    ensures { result ≡ in_range at (signed negative number) end }
{
    if negative {
        if Number::LOWEST < number {
            return Err(Fault {
                cause: Cause::Range,
                offset: at,
            });
        }
        return Ok(Number {
            value: negated(number),
            end,
        });
    }
    if Number::LARGEST < number {
        return Err(Fault {
            cause: Cause::Range,
            offset: at,
        });
    }
    Ok(Number {
        value: number as i64,
        end,
    })
}

// The integer whose `i` is at `at` and whose digits are at `from`: its form is judged before its range.
fn integer_from(s: &[u8], at: usize, from: usize, negative: bool) -> Result<Number, Fault>
    ensures { result ≡ integer_from s.now at from negative }
{
    let n = numeral(s, from);
    let end = n.end;
    let number = n.number;
    if end == from {
        return Err(Fault {
            cause: Cause::Syntax,
            offset: from,
        });
    }
    if byte_at(s, end) != b'e' {
        return Err(Fault {
            cause: Cause::Syntax,
            offset: end,
        });
    }
    in_range(at, negative, number, end + 1)
}

// The integer at an offset, or the fault.
pub fn integer(s: &[u8], at: usize) -> Result<Number, Fault>
    ensures { result ≡ integer_at s.now at }
{
    if byte_at(s, at) != b'i' {
        return Err(Fault {
            cause: Cause::Syntax,
            offset: at,
        });
    }
    if byte_at(s, at + 1) != b'-' {
        return integer_from(s, at, at + 1, false);
    }
    if byte_at(s, at + 2) == b'0' {
        return Err(Fault {
            cause: Cause::Syntax,
            offset: at + 2,
        });
    }
    integer_from(s, at, at + 2, true)
}

// The offset after the integer at an offset.
// Stays beside `string_end`: one line each, over two readers.
pub fn integer_end(s: &[u8], at: usize) -> Result<usize, Fault>
    ensures { result ≡ number_end (integer_at s.now at) }
{
    let number = integer(s, at)?;
    Ok(number.end)
}

// The offset after the integer at an offset, if there is one.
pub fn after_integer(s: &[u8], at: usize) -> Option<usize>
    ensures { result ≡ after_of (number_end (integer_at s.now at)) }
{
    integer_end(s, at).ok()
}

// The distance of an integer from zero.
pub fn magnitude(v: i64) -> u64
    ensures { result ≡ nat_abs v }
{
    v.unsigned_abs()
}
