// The value of a key in a dictionary that has been walked, by its kind and with its place.
ghost use Rattle.std.specs.Prelude.{◌≡◌};
ghost use Rattle.bencode.specs.Strings.{string_at};
ghost use Rattle.bencode.specs.Integers.{integer_at};
ghost use Rattle.bencode.specs.Field.{integer_in, number_field, text_field, field_at, field_of};

use super::entry::find;
use super::integers::{Number, integer};
use super::strings::{Text, string};
use octets::byte_at;

// A value by its kind: an integer and the offset after it, the start and the end of a string's text, or the offset of a
// list's first item or of a dictionary's first entry.
#[derive(Clone, Copy)]
pub enum Field {
    Integer { value: i64, end: usize },
    Text { start: usize, end: usize },
    List(usize),
    Dictionary(usize),
}

impl Field {
    // The integer that it is, and the offset after it.
    pub fn integer(self) -> Option<Number>
        ensures { result ≡ integer_in self }
    {
        match self {
            Field::Integer { value, end } => Some(Number { value, end }),
            _ => None,
        }
    }
}

// Stays beside `text_field`: two lines each, over two readers and two kinds.
#[tactic(auto, using(crate::proofs::lookup::FieldLaws::field_number))]
fn integer_field(s: &[u8], at: usize) -> Option<Field>
    ensures { result ≡ number_field (integer_at s.now at) }
{
    let Number { value, end } = integer(s, at).ok()?;
    Some(Field::Integer { value, end })
}

fn text_field(s: &[u8], at: usize) -> Option<Field>
    ensures { result ≡ text_field (string_at s.now at) }
{
    let Text { start, end } = string(s, at).ok()?;
    Some(Field::Text { start, end })
}

// The value at an offset, or none where no value starts.
#[tactic(auto, unfolding(crate::specs::Field::field_at))]
pub fn field_at(s: &[u8], at: usize) -> Option<Field>
    ensures { result ≡ field_at s.now at }
{
    let b = byte_at(s, at);
    if b == b'l' {
        return Some(Field::List(at + 1));
    }
    if b == b'd' {
        return Some(Field::Dictionary(at + 1));
    }
    if b == b'i' {
        return integer_field(s, at);
    }
    text_field(s, at)
}

// The value of a key in the dictionary whose entries start at an offset, or none where there is no such key.
#[tactic(auto, unfolding(crate::specs::Field::field_of))]
pub fn field_of(s: &[u8], from: usize, key: &[u8]) -> Option<Field>
    ensures { result ≡ field_of s.now key.now from }
{
    field_at(s, find(s, from, key)?)
}
