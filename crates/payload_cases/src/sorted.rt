// What the sorter did as a line: `code offset count` and, where it was accepted, the sorted payload in lower case hex digits.
use cases::{Fields, Hex, Stop};
use std::io::Write;

// Room (4), the payload.
pub fn print_sorted<W: Write>(out: &mut W, body: &[u8], space: &mut [u8]) -> Result<(), Stop> {
    let mut fields = Fields { rest: body };
    let room = fields.number()? as usize;
    if space.len() < room {
        return Err(Stop::Fault);
    }
    match canonical::sort(fields.rest, &mut space[..room]) {
        Ok(n) => {
            let sorted = space.get(..n).ok_or(Stop::Fault)?;
            writeln!(out, "0 0 {n} {}", Hex(sorted))?;
        }
        Err(refusal) => writeln!(out, "{} {} 0", refusal.code(), refusal.offset())?,
    }
    Ok(())
}
