// A dictionary's keys as they are read: strings that are text.
ghost use Rattle.std.specs.Prelude.{◌≡◌};
ghost use Rattle.bencode.specs.Fault.{fault};
ghost use Rattle.bencode.specs.KeySearch.{key_text_at};
ghost use Rattle.bencode.specs.declared.fault.Cause.{Cause};

use super::fault::{Cause, Fault};
use super::plain_text::is_plain;
use super::short_strings::short_string;
use super::strings::{Text, string};
use super::text::is_text;

// The fault of a key at an offset that is no text: at its first length digit.
pub fn ill_formed_key(at: usize) -> Fault
    ensures { result ≡ fault Cause.IllFormedKey at }
{
    Fault {
        cause: Cause::IllFormedKey,
        offset: at,
    }
}

// The key at an offset, or the fault. It is called at one place only, so that it is inlined there.
pub fn key_string(s: &[u8], at: usize) -> Result<Text, Fault>
    ensures { result ≡ key_text_at s.now at }
{
    if let Some(text) = short_string(s, at) {
        if is_plain(s, text.start, text.end) {
            return Ok(text);
        }
    }
    let text = string(s, at)?;
    if is_text(&s[text.start..text.end]) {
        return Ok(text);
    }
    Err(ill_formed_key(at))
}
