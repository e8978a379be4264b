// How long the parts of a payload are. A value over the largest payload counts as one byte over it.
ghost use Rattle.std.specs.Prelude.{◌≡◌, ◌+◌, ◌≤◌, min, length};
ghost use Rattle.bencode.specs.Value.{encode_string};
ghost use Rattle.ipc.specs.Header.{largest_payload};
ghost use Rattle.ipc.specs.Keys.{key_text};
ghost use Rattle.ipc.specs.Writer.{encode_bytes, encode_given, encode_tag};

use super::header::PayloadLength;
use super::keys::{Class, text_length};
use super::writer::Given;
use bencode::{integer_length, string_head};

// The bytes of `0:`.
const EMPTY_STRING: usize = 2;

// A number, or one over the largest payload where it is larger.
fn cut(n: usize) -> usize
    ensures { result ≡ min n (largest_payload + 1) }
{
    n.min(PayloadLength::LARGEST as usize + 1)
}

fn string_length(s: &[u8]) -> usize
    ensures { result ≡ min (length (encode_string s.now)) (largest_payload + 1) }
{
    let n = cut(s.len());
    cut(n + string_head(n))
}

fn bytes_length(class: Class, s: &[u8]) -> usize
    ensures { result ≡ min (length (encode_bytes class s.now)) (largest_payload + 1) }
{
    match class {
        Class::Text => string_length(s),
        _ => cut(s.len()),
    }
}

// How long a value is as it is written, cut as above.
#[tactic(auto, using(crate::proofs::writing::LengthLaws::nothing_length), unfolding(crate::specs::Writer::encode_given))]
pub fn value_length(class: Class, given: Given, s: &[u8]) -> usize
    ensures { result ≡ min (length (encode_given class given s.now)) (largest_payload + 1) }
{
    match given {
        Given::Nothing => EMPTY_STRING,
        Given::Integer(z) => integer_length(z),
        Given::Bytes => bytes_length(class, s),
    }
}

// How long a tag is as it is written.
pub fn tag_length(tag: u32) -> usize
    ensures { (result ≡ length (encode_tag tag)) × (result ≤ 23) }
{
    if tag == 0 {
        return 0;
    }
    integer_length(i64::from(tag))
}

// How long a key is as it is written.
pub fn key_length(key: u8) -> usize
    ensures { (result ≡ length (encode_string (key_text key))) × (result ≤ 35) }
{
    let n = text_length(key);
    n + string_head(n)
}
