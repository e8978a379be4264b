// The writer of handshakes.
ghost use Rattle.std.specs.Prelude.{◌≡◌, ◌≤◌, length};
ghost use Rattle.octets.specs.Put.{Wrote};
ghost use Rattle.ipc.specs.Writer.{frame_of, fitted, Leaves};
ghost use Rattle.ipc.specs.HandshakeWriter.{handshake_payload, handshake_written};

use super::header::HEADER_LENGTH;
use super::hex::hex_header;
use super::versions::Versions;
use super::writer::WriteRefusal;
use bencode::{integer_length, put_integer};
use octets::put_bytes;

// The bytes of a handshake beside its two integers.
const HANDSHAKE_TEXT: usize = 23;

// Writes the frame of a handshake whose payload has a length.
fn put_handshake(out: &mut [u8], low: u32, high: u32, size: u32) -> usize
    requires { (size ≡ length (handshake_payload low high)) × (length (frame_of (handshake_payload low high)) ≤ length out.old) }
    ensures { Wrote out.old 0 (frame_of (handshake_payload low high)) out.new result }
{
    let header = hex_header(size);
    let o = put_bytes(out, 0, &header);
    let o = put_bytes(out, o, b"d7:versiond3:min");
    let o = put_integer(out, o, i64::from(low));
    let o = put_bytes(out, o, b"3:max");
    let o = put_integer(out, o, i64::from(high));
    put_bytes(out, o, b"ee")
}

// Writes the handshake of a range.
fn write_range(low: u32, high: u32, out: &mut [u8]) -> Result<usize, WriteRefusal>
    ensures { Leaves (fitted (handshake_payload low high) (length out.old)) (handshake_payload low high) out.old result out.new }
{
    let size = integer_length(i64::from(low)) + integer_length(i64::from(high)) + HANDSHAKE_TEXT;
    if out.len() < HEADER_LENGTH + size {
        return Err(WriteRefusal::Room);
    }
    Ok(put_handshake(out, low, high, size as u32))
}

// Writes a handshake at the front of a buffer, or refuses and writes nothing.
pub fn write_handshake(low: u32, high: u32, out: &mut [u8]) -> Result<usize, WriteRefusal>
    ensures { Leaves (handshake_written low high (length out.old)) (handshake_payload low high) out.old result out.new }
{
    Versions::new(i64::from(low), i64::from(high)).ok_or(WriteRefusal::Value)?;
    write_range(low, high, out)
}
