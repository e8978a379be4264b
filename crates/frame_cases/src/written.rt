// What a writer did as a line: `code count`, and a frame in lower case hex digits.
use cases::{Fields, Hex, Stop};
use ipc::{Given, WriteRefusal, agreed_version, write, write_handshake};
use std::io::Write;

// The line of an answer, the frame at the front of a buffer.
fn print_written<W: Write>(
    out: &mut W,
    written: Result<usize, WriteRefusal>,
    room: &[u8],
) -> Result<(), Stop> {
    match written {
        Ok(n) => {
            let frame = room.get(..n).ok_or(Stop::Fault)?;
            writeln!(out, "0 {n} {}", Hex(frame))?;
        }
        Err(refusal) => writeln!(out, "{} 0", refusal.code())?,
    }
    Ok(())
}

// The room of a case at the front of a buffer, which must be long enough.
fn room_of(space: &mut [u8], room: u32) -> Result<&mut [u8], Stop> {
    space.get_mut(..room as usize).ok_or(Stop::Fault)
}

// Key (4), kind of the value (1), integer (8), tag (4), room (4), the bytes handed in.
pub fn print_message<W: Write>(out: &mut W, body: &[u8], space: &mut [u8]) -> Result<(), Stop> {
    let mut fields = Fields { rest: body };
    let key = fields.number()?;
    let kind = fields.byte()?;
    let integer = fields.integer()?;
    let tag = fields.number()?;
    let room = room_of(space, fields.number()?)?;
    let given = match kind {
        0 => Given::Nothing,
        1 => Given::Integer(integer),
        2 => Given::Bytes,
        _ => return Err(Stop::Fault),
    };
    // A key as the writer takes it: none is over 255, and 0 is none.
    let key = u8::try_from(key).unwrap_or(0);
    let written = write(key, given, fields.rest, tag, room);
    print_written(out, written, room)
}

// Min, max and room (4 each).
pub fn print_handshake<W: Write>(out: &mut W, body: &[u8], space: &mut [u8]) -> Result<(), Stop> {
    let mut fields = Fields { rest: body };
    let min = fields.number()?;
    let max = fields.number()?;
    let room = room_of(space, fields.number()?)?;
    if !fields.rest.is_empty() {
        return Err(Stop::Fault);
    }
    let written = write_handshake(min, max, room);
    print_written(out, written, room)
}

// Min, max, min and max (4 each).
pub fn print_agreed<W: Write>(out: &mut W, body: &[u8]) -> Result<(), Stop> {
    let mut fields = Fields { rest: body };
    let min = fields.number()?;
    let max = fields.number()?;
    let other_min = fields.number()?;
    let other_max = fields.number()?;
    if !fields.rest.is_empty() {
        return Err(Stop::Fault);
    }
    writeln!(out, "{}", agreed_version(min, max, other_min, other_max))?;
    Ok(())
}
