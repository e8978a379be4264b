// Messages: a list of a key, a value and, if it has one, a tag. A message is read in one pass.
ghost use Rattle.std.specs.Prelude.{◌≡◌, ◌≤◌, length, Err};
ghost use Rattle.octets.specs.Bytes.{byte_at};
ghost use Rattle.bencode.specs.Depth.{list_levels};
ghost use Rattle.bencode.specs.Letters.{letter_l};
ghost use Rattle.bencode.specs.Walk.{value_at};
ghost use Rattle.ipc.specs.declared.reading.Refusal.{Refusal};
ghost use Rattle.ipc.specs.Format.{formatted};
ghost use Rattle.ipc.specs.Keys.{class_of};
ghost use Rattle.ipc.specs.Message.{tail_at, message_reading};
ghost use Rattle.ipc.specs.OnePass.{value_end, walked_only, list_value, Held, Valuing, keyed_reading};
ghost use Rattle.ipc.specs.Reader.{payload_reading};

use super::format::{check_value, part_value};
use super::header::HEADER_LENGTH;
use super::ids::Tag;
use super::keys::{Class, class_of, key_of};
use super::lists::{ListCheck, id_list, text_list, torrent_list};
use super::payload::Payload;
use super::reading::{Frame, Message, Refusal, Value};
use bencode::{Fault, integer, list_rest, list_value, payload, string, sublist_rest};
use octets::byte_at;

// The tag that stands at an offset after a message's value, or none; the list ends after it.
#[tactic(auto, using(crate::proofs::frames::MessageLaws::tails))]
fn tag_at(p: &[u8], at: usize) -> Result<Option<Tag>, Refusal>
    ensures { result ≡ tail_at p.now at }
{
    if byte_at(p, at) == b'e' {
        return Ok(None);
    }
    match integer(p, at) {
        Ok(number) => {
            let tag = Tag::new(number.value).ok_or(Refusal::NoMessage)?;
            if byte_at(p, number.end) != b'e' {
                return Err(Refusal::NoMessage);
            }
            Ok(Some(tag))
        }
        Err(_) => Err(Refusal::NoMessage),
    }
}

// The offset after a message's value that has been walked: a list in its format, or a value that is not yet held to its format.
// Stays: both cases are an end, and an Option<Value> beside it would have None for what check_value has yet to try.
#[derive(Clone, Copy)]
pub enum ValueCheck {
    Fits(usize),
    Other(usize),
}

impl ValueCheck {
    fn end(self) -> usize
        ensures { result ≡ value_end self }
    {
        match self {
            ValueCheck::Fits(end) => end,
            ValueCheck::Other(end) => end,
        }
    }
}

// The value at an offset, walked only.
fn walked(p: Payload, at: usize) -> Result<ValueCheck, Fault>
    ensures { result ≡ walked_only (value_at p.entry.profile list_levels p.entry.bytes.now at) }
{
    Ok(ValueCheck::Other(list_value(p.bytes, at, p.profile)?))
}

// The value that is a list: where an item is off its format, the rest is walked only.
#[inline(never)]
fn listed(p: Payload, checked: ListCheck) -> Result<ValueCheck, Fault>
    ensures { result ≡ list_value p.entry.profile p.entry.bytes.now checked }
{
    match checked {
        ListCheck::Fits(end) => Ok(ValueCheck::Fits(end)),
        ListCheck::Off(at) => Ok(ValueCheck::Other(sublist_rest(p.bytes, at, p.profile)?)),
    }
}

// The value at an offset. A list in its format is held to it while it is walked.
fn value_of(p: Payload, class: Class, at: usize) -> Result<ValueCheck, Fault>
    ensures { Valuing p.entry.profile class p.entry.bytes.now at result }
{
    if byte_at(p.bytes, at) != b'l' {
        return walked(p, at);
    }
    match class {
        Class::TextList => listed(p, text_list(p.bytes, at + 1)),
        Class::IdList => listed(p, id_list(p.bytes, at + 1)),
        Class::TorrentList => listed(p, torrent_list(p.bytes, at + 1, p.profile)?),
        _ => walked(p, at),
    }
}

// What the message with a key holds of the value at an offset, which has been walked.
fn value_held(p: Payload, key: u8, at: usize, check: ValueCheck) -> Option<Value>
    requires { (at ≤ value_end check) × (value_end check ≤ length p.bytes.now) × Held (class_of key) p.bytes.now at check }
    ensures { result ≡ formatted (class_of key) p.entry.bytes.now at (value_end check) }
{
    match check {
        ValueCheck::Fits(end) => Some(part_value(at, end)),
        ValueCheck::Other(end) => check_value(p.bytes, class_of(key), at, end),
    }
}

// The answer for the key with a number and the value at an offset, which has been walked: the rest is walked. This and `listed`
// stay calls: with `rest` in line the loop over strings took 1.07 of the instructions.
#[inline(never)]
#[tactic(auto, unfolding(crate::specs::OnePass::keyed_reading))]
fn rest(p: Payload, key: u8, at: usize, check: ValueCheck) -> Result<Frame, Refusal>
    requires { (value_at p.profile list_levels p.bytes.now at ≡ Ok (value_end check)) × Held (class_of key) p.bytes.now at check }
    ensures { result ≡ keyed_reading p.entry.profile p.entry.bytes.now key at }
{
    let end = check.end();
    list_rest(p.bytes, end, p.profile)?;
    let tag = tag_at(p.bytes, end)?;
    match value_held(p, key, at, check) {
        Some(value) => Ok(Frame::Message {
            message: Message { key, tag, value },
            consumed: HEADER_LENGTH + p.bytes.len(),
        }),
        None => Err(Refusal::OffFormat { key, tag }),
    }
}

// The answer for a list that has no key or no value.
#[tactic(auto, using(crate::proofs::frames::ReaderLaws::payload_list), unfolding(crate::specs::Reader::payload_reading))]
fn unkeyed(p: Payload) -> Result<Frame, Refusal>
    requires { (byte_at p.bytes.now 0 ≡ letter_l) × (message_reading p.bytes.now ≡ Err Refusal.NoMessage) }
    ensures { result ≡ payload_reading p.entry.profile p.entry.bytes.now }
{
    payload(p.bytes, p.profile)?;
    Err(Refusal::NoMessage)
}

// The answer for a payload that opens as a list.
pub fn message(p: Payload) -> Result<Frame, Refusal>
    requires { byte_at p.bytes.now 0 ≡ letter_l }
    ensures { result ≡ payload_reading p.entry.profile p.entry.bytes.now }
{
    match string(p.bytes, 1) {
        Ok(text) => {
            if byte_at(p.bytes, text.end) == b'e' {
                return unkeyed(p);
            }
            let found = key_of(&p.bytes[text.start..text.end]);
            let check = value_of(p, found.class, text.end)?;
            rest(p, found.number, text.end, check)
        }
        Err(_) => unkeyed(p),
    }
}
