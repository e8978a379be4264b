// The value of a key in a dictionary that has been walked.
ghost use Rattle.std.specs.Prelude.{◌≡◌};
ghost use Rattle.bencode.specs.Entry.{entry_at};

use super::skip::skip_value;
use super::strings::string;
use octets::same;

// The offset of the value of a key in the dictionary whose entries start at an offset, or none where there is no such key.
pub fn find(s: &[u8], from: usize, key: &[u8]) -> Option<usize>
    ensures { result ≡ entry_at s.now key.now from }
{
    let mut at = from;
    loop {
        let Ok(text) = string(s, at) else {
            return None;
        };
        if same(&s[text.start..text.end], key) {
            return Some(text.end);
        }
        at = skip_value(s, text.end);
    }
}
