// The reader of frames.
ghost use Rattle.std.specs.Prelude.{◌≡◌, ◌≤◌};
ghost use Rattle.bencode.specs.declared.profile.Profile.{Profile};
ghost use Rattle.ipc.specs.Header.{largest_payload};
ghost use Rattle.ipc.specs.Answer.{answer_of};
ghost use Rattle.ipc.specs.Reader.{payload_reading, length_reading, reading_by, read_frame_by, frame_reading, read_frame};

use super::handshake::handshake;
use super::header::{HEADER_LENGTH, PayloadLength, read_header};
use super::message::message;
use super::payload::Payload;
use super::reading::{Frame, Refusal};
use bencode::{Profile, payload};
use octets::byte_at;

// The answer for a payload.
#[tactic(auto, unfolding(crate::specs::Reader::payload_reading))]
fn read_payload(p: Payload) -> Result<Frame, Refusal>
    ensures { result ≡ payload_reading p.entry.profile p.entry.bytes.now }
{
    let b = byte_at(p.bytes, 0);
    if b == b'l' {
        return message(p);
    }
    payload(p.bytes, p.profile)?;
    if b == b'd' {
        return handshake(p);
    }
    Err(Refusal::NoMessage)
}

// The answer for a frame whose payload has a length.
fn read_length(s: &[u8], length: PayloadLength, profile: Profile) -> Result<Frame, Refusal>
    requires { length.0 ≤ largest_payload }
    ensures { result ≡ length_reading profile s.now length.0 }
{
    let end = HEADER_LENGTH + length.number() as usize;
    if s.len() < end {
        return Err(Refusal::Incomplete);
    }
    let bytes = &s[HEADER_LENGTH..end];
    read_payload(Payload { bytes, profile })
}

// The answer for the frame at the front of the bytes.
fn read_by(s: &[u8], profile: Profile) -> Result<Frame, Refusal>
    ensures { result ≡ reading_by profile s.now }
{
    let n = read_header(s)?;
    let length = PayloadLength::new(n)?;
    read_length(s, length, profile)
}

// Reads the frame at the front of the bytes. Bytes after it are left for the next read.
pub fn read(s: &[u8]) -> Result<Frame, Refusal>
    ensures answer { result ≡ frame_reading s.now }
    ensures numbers { answer_of result ≡ read_frame s.now }
{
    read_by(s, Profile::Loose)
}

// The same in the strict profile: a key that does not rise is refused by 11.
pub fn read_strict(s: &[u8]) -> Result<Frame, Refusal>
    ensures answer { result ≡ reading_by Profile.Strict s.now }
    ensures numbers { answer_of result ≡ read_frame_by Profile.Strict s.now }
{
    read_by(s, Profile::Strict)
}
