// The walk of a payload: values, lists and dictionaries, which hold values again. Calls nest by level; items go by a loop.
ghost use Rattle.std.specs.Prelude.{◌≡◌, ◌≤◌};
ghost use Rattle.bencode.specs.Depth.{largest_depth, levels_left};
ghost use Rattle.bencode.specs.Entry.{entry_at};
ghost use Rattle.bencode.specs.Fault.{code_of, offset_of};
ghost use Rattle.bencode.specs.Record.{noted_of};
ghost use Rattle.bencode.specs.Walk.{value_at, list_at, dictionary_at, whole, payload_at, payload_code, payload_offset};

use super::classes::Classes;
use super::depth::Depth;
use super::fault::{Cause, Fault};
use super::key::{Seen, check_key};
use super::profile::Profile;
use super::records::{Noted, found_after};
use super::runs::quick_items;
use super::scalar::{quick_scalar, scalar_end};
use super::text_keys::key_string;

// The offset after the value at an offset, which stands at a depth.
#[cycle(dictionary_list_value)]
pub fn value(
    s: &[u8],
    at: usize,
    depth: Depth,
    profile: Profile,
    classes: &Classes,
) -> Result<usize, Fault>
    requires { depth.0 ≤ largest_depth }
    ensures { result ≡ value_at profile (levels_left depth) s.now at }
{
    let class = classes.at(s, at);
    let too_deep = Fault {
        cause: Cause::Depth,
        offset: at,
    };
    if class == b'l' {
        let inner = depth.nested().ok_or(too_deep)?;
        return list(s, at + 1, inner, profile, classes);
    }
    if class == b'd' {
        let inner = depth.nested().ok_or(too_deep)?;
        return Ok(dictionary(s, at + 1, b"", inner, profile, classes)?.end);
    }
    scalar_end(s, at)
}

// The offset after the list whose values start at an offset. Only a value that nests, or a fault, needs a call of `value`.
// Stays: a loop, since where a value starts is known only after the one before it, which may be a fault.
// In line in `value`: as a call, a level of lists takes more than half as much stack and time again.
#[inline(always)]
#[cycle(dictionary_list_value)]
pub fn list(
    s: &[u8],
    from: usize,
    depth: Depth,
    profile: Profile,
    classes: &Classes,
) -> Result<usize, Fault>
    requires { depth.0 ≤ largest_depth }
    ensures { result ≡ list_at profile (levels_left depth) s.now from }
{
    let mut at = from;
    loop {
        let class = classes.at(s, at);
        if class == b'e' {
            return Ok(at + 1);
        }
        if let Some(after) = quick_items(s, at, class, classes) {
            at = after;
        } else {
            at = value(s, at, depth, profile, classes)?;
        }
    }
}

// The offset after the dictionary whose entries start at an offset, and where the value of a key is in it.
// Stays: a loop, for the same reason.
#[cycle(dictionary_list_value)]
pub fn dictionary(
    s: &[u8],
    from: usize,
    key: &[u8],
    depth: Depth,
    profile: Profile,
    classes: &Classes,
) -> Result<Noted, Fault>
    requires { depth.0 ≤ largest_depth }
    ensures { result ≡ noted_of (dictionary_at profile (levels_left depth) s.now from) (entry_at s.now key.now from) }
{
    let mut at = from;
    let mut seen = Seen::none(from);
    let mut found = None;
    loop {
        if classes.at(s, at) == b'e' {
            return Ok(Noted {
                end: at + 1,
                value: found,
            });
        }
        let text = key_string(s, at)?;
        seen = check_key(s, seen, at, text, profile)?;
        found = found_after(found, s, text, key);
        if let Some(after) = quick_scalar(s, text.end, classes) {
            at = after;
        } else {
            at = value(s, text.end, depth, profile, classes)?;
        }
    }
}

// The end of a payload, which is the end of its value: no byte follows.
pub fn whole(s: &[u8], walk: Result<usize, Fault>) -> Result<usize, Fault>
    ensures { result ≡ whole s.now walk }
{
    let end = walk?;
    if end == s.len() {
        return Ok(end);
    }
    Err(Fault {
        cause: Cause::Trailing,
        offset: end,
    })
}

// Walks a payload, which is one value and nothing after it.
pub fn payload(s: &[u8], profile: Profile) -> Result<usize, Fault>
    ensures answer { result ≡ payload_at profile s.now }
    ensures numbers { (code_of result ≡ payload_code profile s.now) × (offset_of result ≡ payload_offset profile s.now) }
{
    let classes = Classes::new();
    whole(s, value(s, 0, Depth::outermost(), profile, &classes))
}
