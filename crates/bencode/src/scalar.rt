// Values that hold no other: strings and integers.
ghost use Rattle.std.specs.Prelude.{◌≡◌, IfSome, Ok};
ghost use Rattle.bencode.specs.Fault.{after_of};
ghost use Rattle.bencode.specs.Scalar.{scalar_at};

use super::classes::Classes;
use super::fault::Fault;
use super::integers::{after_integer, integer_end};
use super::plain_integers::plain_end;
use super::short_strings::short_string;
use super::strings::{after_string, string_end};
use octets::byte_at;

// The offset after the string or the integer at an offset.
pub fn scalar_end(s: &[u8], at: usize) -> Result<usize, Fault>
    ensures { result ≡ scalar_at s.now at }
{
    if byte_at(s, at) == b'i' {
        return integer_end(s, at);
    }
    string_end(s, at)
}

// The offset after the string or the integer at an offset, if there is one.
pub fn after_scalar(s: &[u8], at: usize) -> Option<usize>
    ensures { result ≡ after_of (scalar_at s.now at) }
{
    if byte_at(s, at) == b'i' {
        return after_integer(s, at);
    }
    if let Some(text) = short_string(s, at) {
        return Some(text.end);
    }
    after_string(s, at)
}

// The offset after the string or the integer at an offset, if it is short; none says nothing. It is called at one place only, so
// that it is inlined there.
pub fn quick_scalar(s: &[u8], at: usize, classes: &Classes) -> Option<usize>
    ensures { IfSome result (λ end. scalar_at s.now at ≡ Ok end) }
{
    if byte_at(s, at) == b'i' {
        return plain_end(s, at, classes);
    }
    Some(short_string(s, at)?.end)
}
