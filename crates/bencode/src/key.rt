// The key rule for keys that are text: which may follow which in a dictionary. A key above all earlier ones costs one comparison.
ghost use Rattle.std.specs.Prelude.{◌≡◌, ◌<◌};
ghost use Rattle.octets.specs.Bytes.{slice};
ghost use Rattle.bencode.specs.Marks.{place_of};
ghost use Rattle.bencode.specs.KeySearch.{none_seen, Inside, Sound, used_at, repeated_at, above_at, key_at};

use super::entry::find;
use super::fault::{Cause, Fault};
use super::marks::{is_marked, place, with_mark};
use super::profile::Profile;
use super::strings::Text;
use octets::less;

// What a walk keeps of a dictionary's earlier keys: the offset of the first entry, where the greatest key starts and ends,
// and the marks of all.
#[derive(Clone, Copy)]
pub struct Seen {
    pub first: usize,
    pub start: usize,
    pub end: usize,
    pub marks: u64,
}

impl Seen {
    // Before the first entry, which is at an offset.
    pub fn none(first: usize) -> Seen
        ensures { result ≡ none_seen first }
    {
        Seen {
            first,
            start: 0,
            end: 0,
            marks: 0,
        }
    }
}

// Is a key an earlier key of its dictionary, whose first entry is at first. A search from there finds the key itself at the latest,
// and an equal one before it.
#[tactic(auto, unfolding(crate::specs::KeySearch::used_at))]
fn key_used(s: &[u8], first: usize, key: Text) -> bool
    requires { Inside s.now key }
    ensures { result ≡ used_at s.now first (slice s.now key.start key.end) key.end }
{
    find(s, first, &s[key.start..key.end]).is_some_and(|at| at < key.end)
}

// The same, by a search only where the key's mark, at a place, is there.
#[tactic(auto, unfolding(crate::specs::KeySearch::repeated_at))]
fn key_repeated(s: &[u8], seen: Seen, key: Text, place: u64) -> bool
    requires inside { Inside s.now key }
    requires place { (place ≡ place_of (slice s.now key.start key.end)) × (place < 64) }
    ensures { result ≡ repeated_at s.now seen (slice s.now key.start key.end) key.end }
{
    is_marked(seen.marks, place) && key_used(s, seen.first, key)
}

// Is a key above the greatest of the entries before at.
#[tactic(auto, unfolding(crate::specs::KeySearch::above_at))]
fn key_above(s: &[u8], seen: Seen, at: usize, key: Text) -> bool
    requires inside { Inside s.now key }
    requires sound { Sound s.now seen }
    ensures { result ≡ above_at s.now seen at (slice s.now key.start key.end) }
{
    at <= seen.first || less(&s[seen.start..seen.end], &s[key.start..key.end])
}

// What is kept after a key, a text whose entry is at an offset, or the fault of one that may not stand after the earlier keys.
pub fn check_key(
    s: &[u8],
    seen: Seen,
    at: usize,
    key: Text,
    profile: Profile,
) -> Result<Seen, Fault>
    requires inside { Inside s.now key }
    requires sound { Sound s.now seen }
    ensures { result ≡ key_at profile s.now seen at key.start key.end }
{
    let place = place(&s[key.start..key.end]);
    let marks = with_mark(seen.marks, place);
    if key_above(s, seen, at, key) {
        return Ok(Seen {
            first: seen.first,
            start: key.start,
            end: key.end,
            marks,
        });
    }
    if key_repeated(s, seen, key, place) {
        return Err(Fault {
            cause: Cause::RepeatedKey,
            offset: at,
        });
    }
    let unsorted = Fault {
        cause: Cause::UnsortedKey,
        offset: at,
    };
    match profile {
        Profile::Loose => Ok(Seen { marks, ..seen }),
        Profile::Strict => Err(unsorted),
    }
}
