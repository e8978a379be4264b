// Integers and strings put into a lent buffer. Where they have no room, nothing is stored and the offset stays.
ghost use Rattle.std.specs.Prelude.{[], ◌∷◌, ◌≡◌, ◌+◌, ◌≤◌, length};
ghost use Rattle.octets.specs.Numerals.{decimal};
ghost use Rattle.bencode.specs.Value.{integer, sign, encode_string, encode};
ghost use Rattle.octets.specs.Put.{Wrote, Put};

use super::integers::magnitude;
use octets::{decimal_length, lacks_room, put_bytes, put_decimal};

// Stores one byte at an offset, and answers the offset after it.
fn store_byte(out: &mut [u8], at: usize, b: u8) -> usize
    requires { at + 1 ≤ length out.old }
    ensures { Wrote out.old at (b ∷ []) out.new result }
{
    out[at] = b;
    at + 1
}

// Stores the sign of an integer: `-` or nothing.
fn store_sign(out: &mut [u8], at: usize, v: i64) -> usize
    requires { at + length (sign v) ≤ length out.old }
    ensures { Wrote out.old at (sign v) out.new result }
{
    if v < 0 { store_byte(out, at, b'-') } else { at }
}

fn sign_length(v: i64) -> usize
    ensures { (result ≡ length (sign v)) × (result ≤ 1) }
{
    usize::from(v < 0)
}

// How many bytes a bencoded integer has.
pub fn integer_length(v: i64) -> usize
    ensures { (result ≡ length (encode (integer v))) × (result ≤ 23) }
{
    sign_length(v) + decimal_length(magnitude(v)) + 2
}

// Stores a bencoded integer.
fn store_integer(out: &mut [u8], at: usize, v: i64) -> usize
    requires { at + length (encode (integer v)) ≤ length out.old }
    ensures { Wrote out.old at (encode (integer v)) out.new result }
{
    let o = store_byte(out, at, b'i');
    let o = store_sign(out, o, v);
    let o = put_decimal(out, o, magnitude(v));
    store_byte(out, o, b'e')
}

// Stores a bencoded string.
fn store_string(out: &mut [u8], at: usize, text: &[u8]) -> usize
    requires { at + length (encode_string text.now) ≤ length out.old }
    ensures { Wrote out.old at (encode_string text.now) out.new result }
{
    let o = put_decimal(out, at, text.len() as u64);
    let o = store_byte(out, o, b':');
    put_bytes(out, o, text)
}

// Puts a bencoded integer at an offset, and answers the offset after it.
pub fn put_integer(out: &mut [u8], at: usize, v: i64) -> usize
    ensures { Put out.old at (encode (integer v)) out.new result }
{
    if lacks_room(out.len(), at, integer_length(v)) {
        return at;
    }
    store_integer(out, at, v)
}

// Puts a bencoded string at an offset, and answers the offset after it.
pub fn put_string(out: &mut [u8], at: usize, text: &[u8]) -> usize
    ensures { Put out.old at (encode_string text.now) out.new result }
{
    let n = text.len();
    if lacks_room(out.len(), at, n) {
        return at;
    }
    if lacks_room(out.len() - n, at, string_head(n)) {
        return at;
    }
    store_string(out, at, text)
}

// How many bytes stand before a string's text of a length: that length in decimal and the colon.
pub fn string_head(n: usize) -> usize
    ensures { (result ≡ length (decimal n) + 1) × (result ≤ 21) }
{
    decimal_length(n as u64) + 1
}
