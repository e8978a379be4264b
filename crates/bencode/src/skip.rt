// Where a value ends that has been walked before: keys and depth are not checked again, nesting is only counted.
ghost use Rattle.std.specs.Prelude.{◌≡◌, ◌≤◌};
ghost use Rattle.bencode.specs.Skip.{opens, skip_from, skip_value, skip_rest};

use super::scalar::after_scalar;
use octets::byte_at;

// Does a byte open a list or a dictionary.
fn opens(b: u8) -> bool
    ensures { result ≡ opens b }
{
    b == b'l' || b == b'd'
}

// Skips on from an offset with so many lists and dictionaries open. It ends early where no value stands.
fn skip_from(s: &[u8], from: usize, levels: usize) -> usize
    requires { levels ≤ 1 }
    ensures { result ≡ skip_from s.now from levels }
{
    // Stays: the offset moves by items of any length, which no iterator of the library gives.
    let mut at = from;
    let mut depth: usize = levels;
    loop {
        let b = byte_at(s, at);
        if opens(b) {
            depth += 1;
            at += 1;
        } else if b == b'e' {
            at += 1;
            if depth <= 1 {
                return at;
            }
            depth -= 1;
        } else {
            let Some(end) = after_scalar(s, at) else {
                return at;
            };
            at = end;
            if depth == 0 {
                return at;
            }
        }
    }
}

// The offset after the value at an offset.
pub fn skip_value(s: &[u8], at: usize) -> usize
    ensures { result ≡ skip_value s.now at }
{
    match after_scalar(s, at) {
        Some(end) => end,
        None => skip_from(s, at, 0),
    }
}

// The offset after the list or dictionary that an offset stands in, between two of its values.
pub fn skip_rest(s: &[u8], at: usize) -> usize
    ensures { result ≡ skip_rest s.now at }
{
    skip_from(s, at, 1)
}
