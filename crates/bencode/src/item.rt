// The items of a list that has been walked.
ghost use Rattle.std.specs.Prelude.{◌≡◌};
ghost use Rattle.bencode.specs.Item.{item_at};

use super::skip::skip_value;
use octets::byte_at;

// The item at an offset of a list, between two of its items: the offset after it, or none at the list's end. An item ends after it
// starts, also where the list has not been walked.
#[tactic(auto, unfolding(crate::specs::Item::item_at))]
pub fn item_at(s: &[u8], at: usize) -> Option<usize>
    ensures { result ≡ item_at s.now at }
{
    if byte_at(s, at) == b'e' {
        return None;
    }
    let end = skip_value(s, at);
    (at < end).then_some(end)
}
