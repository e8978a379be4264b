// Text: well-formed UTF-8 by RFC 3629 with no zero byte (document 02, request 03).
ghost use Rattle.std.specs.Prelude.{◌≡◌, ℕ, ◌≤◌, length};
ghost use Rattle.bencode.specs.Utf8.{following, lowest, highest, text_from, is_text};

use super::plain_text::plain_at;

// How many bytes follow the first byte of a character; 4 for a byte that begins none.
fn following(b: u8) -> u8
    ensures { result ≡ following b }
{
    match b {
        0 => 4,
        0x01..=0x7F => 0,
        0x80..=0xC1 => 4,
        0xC2..=0xDF => 1,
        0xE0..=0xEF => 2,
        0xF0..=0xF4 => 3,
        _ => 4,
    }
}

// The least second byte after a first one.
// Stays beside `highest`: two tables of RFC 3629, which have no row in common.
fn lowest(b: u8) -> u8
    ensures { result ≡ lowest b }
{
    match b {
        0xE0 => 0xA0,
        0xF0 => 0x90,
        _ => 0x80,
    }
}

// The greatest second byte after a first one.
fn highest(b: u8) -> u8
    ensures { result ≡ highest b }
{
    match b {
        0xED => 0x9F,
        0xF4 => 0x8F,
        _ => 0xBF,
    }
}

// What is left after eight bytes where those are ASCII but 0 and no byte of a character is to come, else the same: it decides as
// before.
fn after_ascii(rest: &[u8], left: u8) -> &[u8]
    ensures { (length result.now ≤ length rest.now) × ((low high : ℕ) → text_from left low high result.now ≡ text_from left low high rest.now) }
{
    if left == 0 && plain_at(rest, 0) {
        return &rest[8..];
    }
    rest
}

// Is a byte string text. It stays a call, so that the walk's loop over entries does not hold its code.
// Stays: a loop, since a character takes one to four bytes, and eight are passed at once where they are ASCII.
#[inline(never)]
pub fn is_text(x: &[u8]) -> bool
    ensures { result ≡ is_text x.now }
{
    let mut left: u8 = 0;
    let mut low: u8 = 0x80;
    let mut high: u8 = 0xBF;
    let mut rest = x;
    while let Some((b, after)) = after_ascii(rest, left).split_first() {
        rest = after;
        if left == 0 {
            left = following(*b);
            if 3 < left {
                return false;
            }
            low = lowest(*b);
            high = highest(*b);
        } else {
            if *b < low || high < *b {
                return false;
            }
            left -= 1;
            low = 0x80;
            high = 0xBF;
        }
    }
    left == 0
}
