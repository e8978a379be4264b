// Marks of keys, a bit of 64 for each, so that a key whose mark is not there is known to be new.
ghost use Rattle.std.specs.Prelude.{◌≡◌, ◌-◌, ◌<◌, length};
ghost use Rattle.octets.specs.Bytes.{byte_at};
ghost use Rattle.bencode.specs.Marks.{place_of, is_marked, with_mark};

use octets::byte_at;

// The last byte of a key, and 0 for the empty one.
// Stays: 0, as for an offset past the end, since the mark of a key is a sum over bytes.
fn last(key: &[u8]) -> u8
    ensures { result ≡ byte_at key.now (length key.now - 1) }
{
    key.last().copied().unwrap_or(0)
}

// The place of a key's mark, by its length, its first and its last byte: so no two of the keys that document 002 names for
// `info` have one place, and no two of those for `status`.
pub fn place(key: &[u8]) -> u64
    ensures { (result ≡ place_of key.now) × (result < 64) }
{
    let n = key.len() as u64 % 64;
    let first = u64::from(byte_at(key, 0));
    (n * 7 + first * 2 + u64::from(last(key))) % 64
}

// Is the mark at a place there.
pub fn is_marked(marks: u64, place: u64) -> bool
    requires { place < 64 }
    ensures { result ≡ is_marked marks place }
{
    (marks >> place) % 2 == 1
}

// The marks with that at a place.
pub fn with_mark(marks: u64, place: u64) -> u64
    requires { place < 64 }
    ensures { result ≡ with_mark marks place }
{
    marks | 1 << place
}
