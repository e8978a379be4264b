// Runs a strip: makes its steps one by one and prints what each says.
#![tactic(auto)]

ghost use Rattle.std.specs.Prelude.{OnOk};
ghost use Rattle.std.specs.Io.KnownBytes.{Appends};
ghost use Rattle.strip.specs.Printed.{printed};

use std::io;
use std::io::Write;
use strip::{begin, next_step};

// Runs a strip and prints what it says, no more and no less. An error is the output's, and ends the run.
// Stays: a loop over the states of a run, of which each comes from the one before.
pub fn run_strip<W: Write>(out: &mut W, s: &[u8]) -> io::Result<()>
    ensures { OnOk result (Appends (W.contents out.old) (W.contents out.new) (printed s.now)) }
{
    let mut run = begin();
    while !run.over {
        let step = next_step(run, s);
        let output = step.output;
        run = step.run;
        out.write_all(output.text())?;
    }
    Ok(())
}
