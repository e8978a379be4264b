// Runs a stream of strips: for each case of operation `s` what override-desk prints for its body, and a line with a point.
#![tactic(auto)]

use cases::{Case, Stop};
use std::io;
use std::io::Write;

fn answer_case<W: Write>(out: &mut W, case: Case<'_>) -> Result<(), Stop> {
    if case.operation != b's' {
        return Err(Stop::Fault);
    }
    strip_run::run_strip(out, case.body)?;
    writeln!(out, ".")?;
    Ok(())
}

fn main(rt: HostRuntime) -> io::Result<()> {
    cases::answer_cases(&mut rt.stdin(), &mut rt.stdout(), answer_case)
}
