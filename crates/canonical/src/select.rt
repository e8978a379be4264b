// Which entry of a dictionary comes next in order: the one with the least key above that of the last one written.
ghost use Rattle.std.specs.Prelude.{◌≡◌, ◌-◌, length};
ghost use Rattle.std.specs.Iterator.{at_most};
ghost use Rattle.octets.specs.Bytes.{less};
ghost use Rattle.canonical.specs.SortWalk.{nothing, is_past, bound_of, key_of, Stands, entry_from, EntryStep, Inside, rises_at, least_at};

use bencode::{skip_value, string};

// An entry of a dictionary: its offset, and where its key starts and ends.
#[derive(Clone, Copy)]
pub struct Pick {
    pub at: usize,
    start: usize,
    end: usize,
}

impl Pick {
    // The key.
    fn key<'a>(self, s: &'a [u8]) -> &'a [u8]
        requires { Stands s.now self }
        ensures { result.now ≡ key_of s.now self }
    {
        &s[self.start..self.end]
    }

    // Is its key above another's.
    fn is_above(self, s: &[u8], other: Pick) -> bool
        requires { Stands s.now self × Stands s.now other }
        ensures { result ≡ less (key_of s.now other) (key_of s.now self) }
    {
        octets::less(other.key(s), self.key(s))
    }
}

// Where the entries go on: at an entry, or past the value of the last one given, which is skipped when the next is asked for.
#[derive(Clone, Copy)]
enum Place {
    Entry(usize),
    Value(usize),
}

// The entries of a dictionary from an offset on, up to what is no key.
#[derive(Drop)]
struct Entries<'a> {
    s: &'a [u8],
    place: Place,
}

impl<'a> Entries<'a> {
    fn new(s: &'a [u8], from: usize) -> Entries<'a>
        ensures { (result.s.now ≡ s.now) × (entry_from s.now result.place ≡ from) }
    {
        Entries {
            s,
            place: Place::Entry(from),
        }
    }

    // Where the next entry is looked for.
    fn offset(&self) -> usize
        ensures { result ≡ entry_from self.now.s.now self.now.place }
    {
        match self.place {
            Place::Entry(at) => at,
            Place::Value(at) => skip_value(self.s, at),
        }
    }
}

impl<'a> Iterator for Entries<'a> {
    type Item = Pick;

    ghost next_gives = { λ e r f. (f.s.now ≡ e.s.now) × EntryStep e.s.now (entry_from e.s.now e.place) r (entry_from e.s.now f.place) };

    ghost remaining = { λ e. at_most (length e.s.now - entry_from e.s.now e.place) };

    // In line in the two loops over it: as a call, the sorter runs up to half again as many instructions.
    #[inline(always)]
    fn next(&mut self) -> Option<Pick> {
        let at = self.offset();
        match string(self.s, at) {
            Err(_) => None,
            Ok(text) => {
                self.place = Place::Value(text.end);
                Some(Pick {
                    at,
                    start: text.start,
                    end: text.end,
                })
            }
        }
    }
}

// Is an entry's key above that of the last entry written, if there is one.
fn is_past(s: &[u8], last: Option<Pick>, entry: Pick) -> bool
    requires { Inside s.now last × Stands s.now entry }
    ensures { result ≡ is_past (bound_of s.now last) (key_of s.now entry) }
{
    last.is_none_or(|l| entry.is_above(s, l))
}

// Do the keys rise from the entry at an offset on.
pub fn rises(s: &[u8], from: usize) -> bool
    ensures { result ≡ rises_at s.now from nothing }
{
    let mut last = None;
    for entry in Entries::new(s, from) {
        if !is_past(s, last, entry) {
            return false;
        }
        last = Some(entry);
    }
    true
}

// The entry with the least key above the last one written, of those from an offset on.
pub fn least(s: &[u8], from: usize, last: Option<Pick>) -> Option<Pick>
    requires { Inside s.now last }
    ensures { (result ≡ least_at s.now (bound_of s.now last) from None) × Inside s.now result }
{
    let mut best = None;
    for entry in Entries::new(s, from) {
        if is_past(s, last, entry) && best.is_none_or(|b: Pick| b.is_above(s, entry)) {
            best = Some(entry);
        }
    }
    best
}
