// Answers a stream of cases, a line for each: `l` walks a payload in the loose profile, `s` in the strict one, `L` and `S` the
// same by one loop; `o` sorts it.
#![tactic(auto)]

mod sorted;

use bencode::{Fault, Profile};
use cases::{Case, Stop};
use sorted::print_sorted;
use std::io;
use std::io::Write;

// 0 and the payload's length, or the fault's code and offset.
fn print_walk<W: Write>(out: &mut W, walk: Result<usize, Fault>) -> io::Result<()> {
    match walk {
        Ok(end) => writeln!(out, "0 {end}"),
        Err(f) => writeln!(out, "{} {}", f.cause.code(), f.offset),
    }
}

// Answers a case, in a room for what it sorts.
fn answer_case<W: Write>(out: &mut W, case: Case<'_>, room: &mut [u8]) -> Result<(), Stop> {
    let body = case.body;
    match case.operation {
        b'l' => print_walk(out, bencode::payload(body, Profile::Loose))?,
        b's' => print_walk(out, bencode::payload(body, Profile::Strict))?,
        b'L' => print_walk(out, bencode::flat::payload(body, Profile::Loose))?,
        b'S' => print_walk(out, bencode::flat::payload(body, Profile::Strict))?,
        b'o' => print_sorted(out, body, room)?,
        _ => return Err(Stop::Fault),
    }
    Ok(())
}

fn main(rt: HostRuntime) -> io::Result<()> {
    let mut room = [0u8; cases::ROOM];
    cases::answer_cases(&mut rt.stdin(), &mut rt.stdout(), |out, case| {
        answer_case(out, case, &mut room)
    })
}
