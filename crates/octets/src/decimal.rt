// Decimal digits written, by subtraction of powers of ten: the source has no division.
ghost use Rattle.std.specs.Prelude.{◌≡◌, ◌+◌, ◌*◌, ◌≤◌, ◌<◌, length};
ghost use Rattle.octets.specs.Numerals.{decimal};
ghost use Rattle.octets.specs.Put.{Wrote};

// The powers of ten that fit 64 bits.
const TENS: [u64; 20] = [
    1,
    10,
    100,
    1000,
    10000,
    100000,
    1000000,
    10000000,
    100000000,
    1000000000,
    10000000000,
    100000000000,
    1000000000000,
    10000000000000,
    100000000000000,
    1000000000000000,
    10000000000000000,
    100000000000000000,
    1000000000000000000,
    10000000000000000000,
];

// The number of digits of n's decimal form: one more than the largest power of ten in it has zeros, and 1 for 0.
pub fn decimal_length(n: u64) -> usize
    ensures { (result ≡ length (decimal n)) × (result ≤ 20) }
{
    TENS.iter()
        .position(|p| n < *p)
        .unwrap_or(TENS.len())
        .max(1)
}

// A digit, and what is left below it.
#[derive(Clone, Copy)]
struct Digit {
    digit: u8,
    rest: u64,
}

// How often p goes into n, by subtraction: at most 9 times.
fn take_digit(n: u64, p: u64) -> Digit
    requires { (0 < p) × (n < 10 * p) }
    ensures { (n ≡ result.digit * p + result.rest) × (result.rest < p) × (result.digit < 10) }
{
    // Stays: the source has no division, a rule of the project, so the digit is counted.
    let mut d: u8 = 0;
    let mut rest = n;
    while p <= rest {
        rest -= p;
        d += 1;
    }
    Digit { digit: d, rest }
}

// Stores the decimal form of n, which has so many digits, at an offset, and answers the offset after it.
pub fn store_decimal(out: &mut [u8], at: usize, n: u64, count: usize) -> usize
    requires { (count ≡ length (decimal n)) × (count ≤ 20) × (at + count ≤ length out.old) }
    ensures { Wrote out.old at (decimal n) out.new result }
{
    let mut o = at;
    let mut rest = n;
    for p in TENS[..count].iter().rev() {
        let d = take_digit(rest, *p);
        out[o] = b'0' + d.digit;
        rest = d.rest;
        o += 1;
    }
    o
}
