// Answers a stream of cases, a line for each: `r` reads a frame, `R` by the strict reader, `w` writes a message, `s` writes a
// handshake and `a` gives the version that two ranges agree on.
#![tactic(auto)]

mod reading;
mod written;

use cases::{Case, Stop};
use ipc::numbers_of;
use reading::Line;
use std::io;
use std::io::Write;
use written::{print_agreed, print_handshake, print_message};

// Answers a case, in a room for what it writes.
fn answer_case<W: Write>(out: &mut W, case: Case<'_>, room: &mut [u8]) -> Result<(), Stop> {
    let body = case.body;
    match case.operation {
        b'r' => writeln!(out, "{}", Line(numbers_of(ipc::read(body))))?,
        b'R' => writeln!(out, "{}", Line(numbers_of(ipc::read_strict(body))))?,
        b'w' => print_message(out, body, room)?,
        b's' => print_handshake(out, body, room)?,
        b'a' => print_agreed(out, body)?,
        _ => return Err(Stop::Fault),
    }
    Ok(())
}

fn main(rt: HostRuntime) -> io::Result<()> {
    let mut room = [0u8; cases::ROOM];
    cases::answer_cases(&mut rt.stdin(), &mut rt.stdout(), |out, case| {
        answer_case(out, case, &mut room)
    })
}
