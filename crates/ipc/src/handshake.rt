// Handshakes: a dictionary whose `version` is a range of versions.
ghost use Rattle.std.specs.Prelude.{◌≡◌};
ghost use Rattle.ipc.specs.Handshake.{range_at, dictionary_versions, handshake_reading};

use super::header::HEADER_LENGTH;
use super::payload::Payload;
use super::reading::{Frame, Refusal};
use super::versions::Versions;
use bencode::{Field, field_of};

// The versions from `min` to `max` of the dictionary whose entries start at an offset.
fn range_at(p: &[u8], from: usize) -> Option<Versions>
    ensures { result ≡ range_at p.now from }
{
    let min = field_of(p, from, b"min")?.integer()?;
    let max = field_of(p, from, b"max")?.integer()?;
    Versions::new(min.value, max.value)
}

// The versions of the dictionary that a payload is: its `version` is one integer, or a dictionary with `min` and `max`.
fn versions_of(p: &[u8]) -> Option<Versions>
    ensures { result ≡ dictionary_versions p.now }
{
    match field_of(p, 1, b"version")? {
        Field::Integer { value, end: _ } => Versions::new(value, value),
        Field::Dictionary(from) => range_at(p, from),
        Field::Text { start: _, end: _ } => None,
        Field::List(_) => None,
    }
}

// The answer for a payload that is a dictionary.
#[tactic(auto, unfolding(crate::specs::Handshake::handshake_reading))]
pub fn handshake(p: Payload) -> Result<Frame, Refusal>
    ensures { result ≡ handshake_reading p.entry.bytes.now }
{
    let versions = versions_of(p.bytes).ok_or(Refusal::NoHandshake)?;
    Ok(Frame::Handshake {
        versions,
        consumed: HEADER_LENGTH + p.bytes.len(),
    })
}
