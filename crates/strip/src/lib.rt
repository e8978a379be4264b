// The strip of document 01: a console's day as bytes. Its records, the calls they are, and a run of it, step by step.
// Every function here takes any bytes: a strip that is none is told at its first fault, and a run ends.
#![tactic(auto)]

mod gather;
mod line;
mod number;
mod output;
mod record;
mod run;

pub use output::Output;
pub use record::LONGEST_STRIP;
pub use run::{Run, Step, begin, next_step};
