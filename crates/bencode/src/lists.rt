// A payload that is a list, walked by parts: its values, its rest, and the rest of a list in it.
ghost use Rattle.std.specs.Prelude.{◌≡◌};
ghost use Rattle.bencode.specs.Depth.{list_levels, sublist_levels};
ghost use Rattle.bencode.specs.Walk.{value_at, list_at, whole};

use super::classes::Classes;
use super::depth::Depth;
use super::fault::Fault;
use super::profile::Profile;
use super::walk::{list, value, whole};

// Stays: the three differ in the function that they call and in the depth, which is all that they say.
// The offset after a value of the list that is a payload.
pub fn list_value(s: &[u8], at: usize, profile: Profile) -> Result<usize, Fault>
    ensures { result ≡ value_at profile list_levels s.now at }
{
    let classes = Classes::new();
    value(s, at, Depth::in_list(), profile, &classes)
}

// The rest of a payload that is a list, from a value of it on.
pub fn list_rest(s: &[u8], at: usize, profile: Profile) -> Result<usize, Fault>
    ensures { result ≡ whole s.now (list_at profile list_levels s.now at) }
{
    let classes = Classes::new();
    whole(s, list(s, at, Depth::in_list(), profile, &classes))
}

// The rest of a list that is a value of it.
pub fn sublist_rest(s: &[u8], at: usize, profile: Profile) -> Result<usize, Fault>
    ensures { result ≡ list_at profile sublist_levels s.now at }
{
    let classes = Classes::new();
    list(s, at, Depth::in_sublist(), profile, &classes)
}
