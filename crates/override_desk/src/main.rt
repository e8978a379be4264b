// Reads a strip from standard input and runs it.
#![tactic(auto)]

use input::read_full;
use std::io::Read;
use strip::LONGEST_STRIP;

// One byte more than a strip may have, so that a longer one is seen to be too long.
const ROOM: usize = LONGEST_STRIP + 1;

// Did reading stop before the input's end, where a read answers 0.
fn read_failed<R: Read>(input: &mut R) -> bool {
    !matches!(input.read(&mut [0u8; 1]), Ok(0))
}

fn complain(rt: &HostRuntime, text: &str) {
    let _ = eprintln!(rt; "override-desk: {text}");
}

fn main(rt: HostRuntime) {
    let mut space = [0u8; ROOM];
    let mut input = rt.stdin();
    let Ok(got) = read_full(&mut input, &mut space) else {
        return complain(&rt, "standard input cannot be read");
    };
    if got < ROOM && read_failed(&mut input) {
        return complain(&rt, "standard input cannot be read");
    }
    let Ok(()) = strip_run::run_strip(&mut rt.stdout(), &space[..got]) else {
        return complain(&rt, "standard output cannot be written");
    };
}
