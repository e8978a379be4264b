// A payload that has been walked, written with its dictionaries sorted. Calls nest by level; items and entries go by loops. What is
// written for a value has as many bytes as the value.
ghost use Rattle.std.specs.Prelude.{◌≡◌, ◌+◌, ◌≤◌, length};
ghost use Rattle.octets.specs.Put.{Wrote};
ghost use Rattle.canonical.specs.SortWalk.{nothing, values_from, selected, entries_at, copied_at, sorted_at};

use super::select::{least, rises};
use bencode::skip_value;
use octets::{byte_at, put_bytes};

// Copies the string or the integer at an offset.
fn put_copy(s: &[u8], at: usize, out: &mut [u8], to: usize) -> usize
    requires { to + length (copied_at s.now at) ≤ length out.old }
    ensures { Wrote out.old to (copied_at s.now at) out.new result }
{
    if s.len() <= at {
        return to;
    }
    let end = skip_value(s, at);
    put_bytes(out, to, &s[at..end])
}

// Writes the value at an offset, in which so many lists and dictionaries may stand in each other, and answers the offset after
// what is written.
#[cycle(put_entries_put_items_put_selected_put_value)]
pub fn put_value(s: &[u8], at: usize, levels: usize, out: &mut [u8], to: usize) -> usize
    requires { to + length (sorted_at levels s.now at) ≤ length out.old }
    ensures { Wrote out.old to (sorted_at levels s.now at) out.new result }
{
    let b = byte_at(s, at);
    if levels == 0 {
        return put_copy(s, at, out, to);
    }
    if b == b'l' {
        let o = put_bytes(out, to, b"l");
        let o = put_items(s, at + 1, s.len(), levels - 1, out, o);
        return put_bytes(out, o, b"e");
    }
    if b == b'd' {
        let o = put_bytes(out, to, b"d");
        let o = put_entries(s, at + 1, levels - 1, out, o);
        return put_bytes(out, o, b"e");
    }
    put_copy(s, at, out, to)
}

// Writes at most so many values from an offset on, up to the end of a list.
#[cycle(put_entries_put_items_put_selected_put_value)]
fn put_items(s: &[u8], from: usize, most: usize, levels: usize, out: &mut [u8], to: usize) -> usize
    requires { (from ≤ length s.now) × (to + length (values_from (sorted_at levels s.now) s.now most from) ≤ length out.old) }
    ensures { Wrote out.old to (values_from (sorted_at levels s.now) s.now most from) out.new result }
{
    let mut at = from;
    let mut o = to;
    for _turn in 0..most {
        if byte_at(s, at) == b'e' {
            return o;
        }
        let end = put_value(s, at, levels, out, o);
        at += end - o;
        o = end;
    }
    o
}

// Writes the entries of a dictionary: as they stand where their keys rise.
#[cycle(put_entries_put_items_put_selected_put_value)]
fn put_entries(s: &[u8], first: usize, levels: usize, out: &mut [u8], to: usize) -> usize
    requires { (first ≤ length s.now) × (to + length (entries_at (sorted_at levels s.now) s.now first) ≤ length out.old) }
    ensures { Wrote out.old to (entries_at (sorted_at levels s.now) s.now first) out.new result }
{
    if rises(s, first) {
        return put_items(s, first, s.len(), levels, out, to);
    }
    put_selected(s, first, levels, out, to)
}

// Writes the entries by key, each found by a walk over all of them: it is two values, a key and what the key has. There are fewer
// entries than bytes, so the range ends no dictionary early; it shows that the loop ends.
#[cycle(put_entries_put_items_put_selected_put_value)]
fn put_selected(s: &[u8], first: usize, levels: usize, out: &mut [u8], to: usize) -> usize
    requires { to + length (selected (sorted_at levels s.now) s.now first (length s.now) nothing) ≤ length out.old }
    ensures { Wrote out.old to (selected (sorted_at levels s.now) s.now first (length s.now) nothing) out.new result }
{
    let mut last = None;
    let mut o = to;
    for _turn in 0..s.len() {
        last = least(s, first, last);
        let Some(entry) = last else { return o };
        o = put_items(s, entry.at, 2, levels, out, o);
    }
    o
}
