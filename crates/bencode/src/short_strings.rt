// Strings whose length has one or two digits, as most have: read with no loop, and small enough to be inlined.
ghost use Rattle.std.specs.Prelude.{◌≡◌, ◌+◌, ◌≤◌, ◌<◌, length, IfSome, Ok};
ghost use Rattle.octets.specs.Bytes.{byte_at};
ghost use Rattle.bencode.specs.Strings.{string_at};

use super::strings::Text;
use octets::byte_at;

// The place of a text of a number of bytes, if it is all there.
fn text_place(s: &[u8], start: usize, number: usize) -> Option<Text>
    requires { (start ≤ length s.now) × (number < 100) }
    ensures { IfSome result (λ t. (t.start ≡ start) × (t.end ≡ start + number) × (t.end ≤ length s.now)) }
{
    let end = start + number;
    if s.len() < end {
        return None;
    }
    Some(Text { start, end })
}

// The string at an offset, if its length has two digits: a is the first and b the byte after it. They are added up as words, since
// the next offset waits for the sum; a byte is 48 above its digit, so ten times the one and the other are 528 above the length.
fn two_digits(s: &[u8], at: usize, a: u8, b: u8) -> Option<Text>
    requires { (a ≡ byte_at s.now at) × (48 ≤ a) × (a ≤ 57) × (b ≡ byte_at s.now (at + 1)) }
    ensures { IfSome result (λ t. string_at s.now at ≡ Ok t) }
{
    if !b.is_ascii_digit() || byte_at(s, at + 2) != b':' || a == b'0' {
        return None;
    }
    text_place(s, at + 3, usize::from(a) * 10 + usize::from(b) - 528)
}

// The string at an offset, if its length has one or two digits; none says nothing.
pub fn short_string(s: &[u8], at: usize) -> Option<Text>
    ensures { IfSome result (λ t. string_at s.now at ≡ Ok t) }
{
    let a = byte_at(s, at);
    if !a.is_ascii_digit() {
        return None;
    }
    let b = byte_at(s, at + 1);
    if b == b':' {
        return text_place(s, at + 2, usize::from(a - b'0'));
    }
    two_digits(s, at, a, b)
}
