// The writer of messages.
ghost use Rattle.std.specs.Prelude.{◌≡◌, ◌≤◌, length};
ghost use Rattle.octets.specs.Put.{Wrote, Put};
ghost use Rattle.ipc.specs.Writer.{encode_bytes, encode_given, encode_tag, payload_of, frame_of, message_fault, length_fault, write_answer, write_refusal_code, Leaves};

use super::check::{tag_fits, value_fits};
use super::header::{HEADER_LENGTH, PayloadLength};
use super::hex::hex_header;
use super::keys::{Class, class_of, is_written, put_key};
use super::lengths::{key_length, tag_length, value_length};
use bencode::{put_integer, put_string};
use octets::put_bytes;

// A value handed in: nothing, an integer, or bytes that stand beside it.
// Stays: with the bytes in the case, each statement on writers would take a borrow where it takes a list of bytes.
#[derive(Clone, Copy)]
pub enum Given {
    Nothing,
    Integer(i64),
    Bytes,
}

// Why a message or a handshake is not written.
#[derive(Clone, Copy)]
pub enum WriteRefusal {
    // A key that is not written.
    Key,
    // A value off its format, or no range of versions.
    Value,
    // A tag over the largest.
    Tag,
    // A payload over the largest.
    Length,
    // A buffer shorter than the frame.
    Room,
}

impl WriteRefusal {
    // The number of a refusal, 40 to 44.
    pub fn code(self) -> u8
        ensures { result ≡ write_refusal_code self }
    {
        match self {
            WriteRefusal::Key => 40,
            WriteRefusal::Value => 41,
            WriteRefusal::Tag => 42,
            WriteRefusal::Length => 43,
            WriteRefusal::Room => 44,
        }
    }
}

// A payload's `l` and `e`.
const LIST_ENDS: usize = 2;

// Puts bytes as they are written: a text as a string, a list as it is.
fn put_given(out: &mut [u8], at: usize, class: Class, s: &[u8]) -> usize
    ensures { Put out.old at (encode_bytes class s.now) out.new result }
{
    match class {
        Class::Text => put_string(out, at, s),
        _ => put_bytes(out, at, s),
    }
}

// Puts a value.
fn put_value(out: &mut [u8], at: usize, class: Class, given: Given, s: &[u8]) -> usize
    ensures { Put out.old at (encode_given class given s.now) out.new result }
{
    match given {
        Given::Nothing => put_string(out, at, b""),
        Given::Integer(z) => put_integer(out, at, z),
        Given::Bytes => put_given(out, at, class, s),
    }
}

// Puts a tag, or nothing for 0.
fn put_tag(out: &mut [u8], at: usize, tag: u32) -> usize
    ensures { Put out.old at (encode_tag tag) out.new result }
{
    if tag == 0 {
        return put_bytes(out, at, b"");
    }
    put_integer(out, at, i64::from(tag))
}

// The first refusal of a message whatever its length.
#[tactic(auto, unfolding(crate::specs::Writer::message_fault))]
fn message_fault(key: u8, given: Given, s: &[u8], tag: u32) -> Result<(), WriteRefusal>
    ensures { result ≡ message_fault key given s.now tag }
{
    if !is_written(key) {
        return Err(WriteRefusal::Key);
    }
    if !value_fits(class_of(key), given, s) {
        return Err(WriteRefusal::Value);
    }
    if !tag_fits(tag) {
        return Err(WriteRefusal::Tag);
    }
    Ok(())
}

// The refusal of a payload's length in a room.
#[tactic(auto, unfolding(crate::specs::Writer::length_fault, crate::specs::Header::sized))]
fn length_fault(size: u32, room: usize) -> Result<(), WriteRefusal>
    ensures { result ≡ length_fault size room }
{
    if PayloadLength::new(size).is_err() {
        return Err(WriteRefusal::Length);
    }
    if room < HEADER_LENGTH + size as usize {
        return Err(WriteRefusal::Room);
    }
    Ok(())
}

// Writes the frame of a message whose payload has a length.
fn put_message(out: &mut [u8], key: u8, given: Given, s: &[u8], tag: u32, size: u32) -> usize
    requires { (size ≡ length (payload_of key given s.now tag)) × (length (frame_of (payload_of key given s.now tag)) ≤ length out.old) }
    ensures { Wrote out.old 0 (frame_of (payload_of key given s.now tag)) out.new result }
{
    let header = hex_header(size);
    let o = put_bytes(out, 0, &header);
    let o = put_bytes(out, o, b"l");
    let o = put_key(out, o, key);
    let o = put_value(out, o, class_of(key), given, s);
    let o = put_tag(out, o, tag);
    put_bytes(out, o, b"e")
}

// Writes a message at the front of a buffer, or refuses and writes nothing. A tag of 0 is none.
// Stays: `tag` is a number, since a type that holds tags alone would ask more of callers.
pub fn write(
    key: u8,
    given: Given,
    s: &[u8],
    tag: u32,
    out: &mut [u8],
) -> Result<usize, WriteRefusal>
    ensures { Leaves (write_answer key given s.now tag (length out.old)) (payload_of key given s.now tag) out.old result out.new }
{
    message_fault(key, given, s, tag)?;
    let size = (key_length(key)
        + value_length(class_of(key), given, s)
        + tag_length(tag)
        + LIST_ENDS) as u32;
    length_fault(size, out.len())?;
    Ok(put_message(out, key, given, s, tag, size))
}
