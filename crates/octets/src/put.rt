// Bytes and decimal digits put into a lent buffer. Where they have no room, nothing is stored and the offset stays.
ghost use Rattle.std.specs.Prelude.{◌≡◌, ◌+◌, ltb};
ghost use Rattle.octets.specs.Numerals.{decimal};
ghost use Rattle.octets.specs.Put.{Put};

use super::decimal::{decimal_length, store_decimal};

// Is there no room for n bytes at an offset of a buffer of a size.
pub fn lacks_room(size: usize, at: usize, n: usize) -> bool
    ensures { result ≡ ltb size (at + n) }
{
    at.checked_add(n).is_none_or(|end| size < end)
}

// Puts bytes at an offset, and answers the offset after them.
pub fn put_bytes(out: &mut [u8], at: usize, src: &[u8]) -> usize
    ensures { Put out.old at src.now out.new result }
{
    if lacks_room(out.len(), at, src.len()) {
        return at;
    }
    // Stays: a loop, since `copy_from_slice` would need `memmove` where the library is linked.
    let mut o = at;
    for b in src {
        out[o] = *b;
        o += 1;
    }
    o
}

// Puts a number in decimal at an offset, and answers the offset after it.
pub fn put_decimal(out: &mut [u8], at: usize, n: u64) -> usize
    ensures { Put out.old at (decimal n) out.new result }
{
    let count = decimal_length(n);
    if lacks_room(out.len(), at, count) {
        return at;
    }
    store_decimal(out, at, n, count)
}
