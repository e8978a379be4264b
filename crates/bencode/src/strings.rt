// Strings: a decimal length, a colon and as many bytes.
ghost use Rattle.std.specs.Prelude.{◌≡◌};
ghost use Rattle.bencode.specs.Fault.{after_of};
ghost use Rattle.bencode.specs.Strings.{string_at, text_end};

use super::fault::{Cause, Fault};
use octets::{byte_at, numeral};

// A string's text, by its start and its end.
#[derive(Clone, Copy)]
pub struct Text {
    pub start: usize,
    pub end: usize,
}

// The string at an offset: where its text is, or the fault.
pub fn string(s: &[u8], at: usize) -> Result<Text, Fault>
    ensures { result ≡ string_at s.now at }
{
    let n = numeral(s, at);
    let colon = n.end;
    let number = n.number;
    if colon == at {
        return Err(Fault {
            cause: Cause::Syntax,
            offset: at,
        });
    }
    if byte_at(s, colon) != b':' {
        return Err(Fault {
            cause: Cause::Syntax,
            offset: colon,
        });
    }
    let start = colon + 1;
    let left = (s.len() - start) as u64;
    if left < number {
        return Err(Fault {
            cause: Cause::Syntax,
            offset: s.len(),
        });
    }
    Ok(Text {
        start,
        end: start + (number as usize),
    })
}

// The offset after the string at an offset.
pub fn string_end(s: &[u8], at: usize) -> Result<usize, Fault>
    ensures { result ≡ text_end (string_at s.now at) }
{
    let text = string(s, at)?;
    Ok(text.end)
}

// The offset after the string at an offset, if there is one.
pub fn after_string(s: &[u8], at: usize) -> Option<usize>
    ensures { result ≡ after_of (text_end (string_at s.now at)) }
{
    string_end(s, at).ok()
}
