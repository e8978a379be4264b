// A dictionary walked, and the value of a key noted on the way: so a dictionary need not be searched for it afterwards.
ghost use Rattle.std.specs.Prelude.{◌≡◌};
ghost use Rattle.octets.specs.Bytes.{slice, same};
ghost use Rattle.bencode.specs.KeySearch.{Inside};
ghost use Rattle.bencode.specs.Record.{found_after, noted_at};

use super::classes::Classes;
use super::depth::Depth;
use super::fault::Fault;
use super::profile::Profile;
use super::strings::Text;
use super::walk::dictionary;

// The offset after a dictionary, and the offset of the value of a key if it has it.
#[derive(Clone, Copy)]
pub struct Noted {
    pub end: usize,
    pub value: Option<usize>,
}

// Where the value of a key was found, after one entry more, whose key has a name. Its length tells most others from it, so the name
// is asked for first.
pub fn found_after(found: Option<usize>, s: &[u8], name: Text, key: &[u8]) -> Option<usize>
    requires { Inside s.now name }
    ensures { result ≡ found_after found (same (slice s.now name.start name.end) key.now) name.end }
{
    if !octets::same(&s[name.start..name.end], key) {
        return found;
    }
    found.or(Some(name.end))
}

// Walks the dictionary whose entries start at an offset, as a value of a list in a payload that is a list.
#[tactic(auto, unfolding(crate::specs::Record::noted_at))]
pub fn record(s: &[u8], from: usize, key: &[u8], profile: Profile) -> Result<Noted, Fault>
    ensures { result ≡ noted_at profile s.now key.now from }
{
    let classes = Classes::new();
    dictionary(s, from, key, Depth::in_record(), profile, &classes)
}
