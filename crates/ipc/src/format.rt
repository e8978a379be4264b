// The formats of values: what a message holds of a value that is in the format of its key.
ghost use Rattle.std.specs.Prelude.{◌≡◌, true, ◌≤◌, length};
ghost use Rattle.bencode.specs.Strings.{string_at};
ghost use Rattle.bencode.specs.Integers.{integer_at, within};
ghost use Rattle.ipc.specs.Header.{largest_payload};
ghost use Rattle.ipc.specs.Ids.{torrent_id_of};
ghost use Rattle.ipc.specs.Format.{integer_value, text_value, part_value, end_of_text, end_by_id, id_end, torrent_end, item_end, items_end, list_part, formatted};

use super::header::HEADER_LENGTH;
use super::ids::TorrentId;
use super::keys::Class;
use super::reading::Value;
use bencode::{field_of, integer, skip_rest, string};
use octets::byte_at;

// The largest port.
pub const LARGEST_PORT: u16 = 65535;

// What the items of a list are.
#[derive(Clone, Copy)]
pub enum Items {
    Texts,
    Ids,
    Torrents,
}

// Any integer.
fn any_integer(p: &[u8], at: usize) -> Option<Value>
    ensures { result ≡ integer_value (λ z. true) (integer_at p.now at) }
{
    Some(Value::Integer(integer(p, at).ok()?.value))
}

// Is an integer from 0 to another.
pub fn is_up_to(z: i64, high: u16) -> bool
    ensures { result ≡ within 0 high z }
{
    (0..=i64::from(high)).contains(&z)
}

// An integer from 0 to another.
fn up_to(p: &[u8], at: usize, high: u16) -> Option<Value>
    ensures { result ≡ integer_value (within 0 high) (integer_at p.now at) }
{
    match integer(p, at) {
        Ok(number) if is_up_to(number.value, high) => Some(Value::Integer(number.value)),
        _ => None,
    }
}

// The text of a string.
fn text_value(p: &[u8], at: usize) -> Option<Value>
    requires { length p.now ≤ largest_payload }
    ensures { result ≡ text_value (string_at p.now at) }
{
    match string(p, at) {
        Ok(text) => Some(Value::Text {
            offset: HEADER_LENGTH + text.start,
            length: text.end - text.start,
        }),
        Err(_) => None,
    }
}

// The bytes from an offset of the payload up to another.
pub fn part_value(at: usize, end: usize) -> Value
    requires { (at ≤ end) × (end ≤ largest_payload) }
    ensures { result ≡ part_value at end }
{
    Value::Part {
        offset: HEADER_LENGTH + at,
        length: end - at,
    }
}

// The offset after the string at an offset.
fn text_end(p: &[u8], at: usize) -> Option<usize>
    ensures { result ≡ end_of_text (string_at p.now at) }
{
    Some(string(p, at).ok()?.end)
}

// The offset after an item whose torrent ID is a number.
fn end_by_id(z: i64, end: usize) -> Option<usize>
    ensures { result ≡ end_by_id end (torrent_id_of z) }
{
    TorrentId::new(z)?;
    Some(end)
}

// The offset after the torrent ID at an offset.
#[tactic(auto, unfolding(crate::specs::Format::id_end))]
fn id_end(p: &[u8], at: usize) -> Option<usize>
    ensures { result ≡ id_end p.now at }
{
    let id = integer(p, at).ok()?;
    end_by_id(id.value, id.end)
}

// The offset after the torrent at an offset: a dictionary whose `id` is a torrent ID.
fn torrent_end(p: &[u8], at: usize) -> Option<usize>
    ensures { result ≡ torrent_end p.now at }
{
    if byte_at(p, at) != b'd' {
        return None;
    }
    let id = field_of(p, at + 1, b"id")?.integer()?;
    end_by_id(id.value, skip_rest(p, id.end))
}

// The offset after an item of a list.
#[tactic(auto, unfolding(crate::specs::Format::item_end))]
fn item_end(p: &[u8], at: usize, items: Items) -> Option<usize>
    ensures { result ≡ item_end items p.now at }
{
    match items {
        Items::Texts => text_end(p, at),
        Items::Ids => id_end(p, at),
        Items::Torrents => torrent_end(p, at),
    }
}

// The offset after the items of a list.
// Stays: a loop, since each item tells where the next starts.
pub fn items_end(p: &[u8], from: usize, items: Items) -> Option<usize>
    ensures { result ≡ items_end items p.now from }
{
    let mut at = from;
    while byte_at(p, at) != b'e' {
        at = item_end(p, at, items)?;
    }
    Some(at + 1)
}

// The list from an offset up to another.
#[tactic(auto, unfolding(crate::specs::Format::list_part))]
fn list_part(p: &[u8], at: usize, end: usize, items: Items) -> Option<Value>
    requires { (at ≤ end) × (end ≤ largest_payload) }
    ensures { result ≡ list_part items p.now at end }
{
    if byte_at(p, at) != b'l' {
        return None;
    }
    items_end(p, at + 1, items)?;
    Some(part_value(at, end))
}

// What a message holds of the value from an offset up to another.
#[tactic(auto, unfolding(crate::specs::Format::formatted))]
pub fn check_value(p: &[u8], class: Class, at: usize, end: usize) -> Option<Value>
    requires { (at ≤ end) × (end ≤ length p.now) × (length p.now ≤ largest_payload) }
    ensures { result ≡ formatted class p.now at end }
{
    match class {
        Class::Unlisted => Some(part_value(at, end)),
        Class::Boolean => up_to(p, at, 1),
        Class::Ignored => Some(Value::Nothing),
        Class::Text => text_value(p, at),
        Class::Integer => any_integer(p, at),
        Class::TextList => list_part(p, at, end, Items::Texts),
        Class::TorrentList => list_part(p, at, end, Items::Torrents),
        Class::Port => up_to(p, at, LARGEST_PORT),
        Class::IdList => list_part(p, at, end, Items::Ids),
    }
}
