// A run of a strip, step by step: a step takes a record, or opens the desk before the first call or the end, and says what
// to print.
ghost use Rattle.std.specs.Prelude.{◌≡◌};
ghost use Rattle.strip.specs.Run.{begun, with_limits, with_watch, with_desk, ended, silent, opened, performed, faulted, call_taken, end_taken, taken, stepped};

use super::gather::{Gathered, nothing_gathered};
use super::line::{call_text, no_output, word_text};
use super::output::Output;
use super::record::{Decoded, Record, call_kind, record_at};
use desk::{Call, Desk, LONGEST_FRAMES, Watch, closed_desk, open_records, perform};

// Where a run is: what it read before the first call, and from there on the desk's record.
// Stays: two marks and no enum of states, as PrintsWhole says by `over` that a run ends.
#[derive(Clone, Copy)]
pub struct Run {
    pub at: usize,
    // The desk is opened: before the first call, or at the end of a strip without one.
    pub called: bool,
    pub over: bool,
    pub down: i32,
    pub up: i32,
    pub gathered: Gathered,
    pub desk: Desk,
}

// The run after a step, and what the step prints.
#[derive(Clone, Copy)]
pub struct Step {
    pub run: Run,
    pub output: Output,
}

// Nothing is read yet, and the desk is closed.
#[tactic(auto, unfolding(crate::specs::Run::begun))]
pub fn begin() -> Run
    ensures { result ≡ begun }
{
    Run {
        at: 0,
        called: false,
        over: false,
        down: 0,
        up: 0,
        gathered: nothing_gathered(),
        desk: closed_desk(),
    }
}

#[tactic(auto, unfolding(crate::specs::Run::with_limits, crate::specs::Run::with_watch, crate::specs::Run::with_desk, crate::specs::Run::ended, crate::specs::Run::silent, crate::specs::Run::call_taken, crate::specs::Run::end_taken, crate::specs::Run::faulted))]
impl Run {
    // The run after a record of limits.
    fn with_limits(self, at: usize, down: i32, up: i32) -> Run
        ensures { result ≡ with_limits down up at self }
    {
        Run {
            at,
            down,
            up,
            ..self
        }
    }

    // The run after a watch record.
    fn with_watch(self, at: usize, watch: Watch) -> Run
        ensures { result ≡ with_watch watch at self }
    {
        let gathered = self.gathered.gather(watch);
        Run {
            at,
            gathered,
            ..self
        }
    }

    // The run with the record that an opening or a call returned.
    fn with_desk(self, at: usize, over: bool, desk: Desk) -> Run
        ensures { result ≡ with_desk desk over at self }
    {
        Run {
            at,
            called: true,
            over,
            desk,
            ..self
        }
    }

    fn ended(self) -> Run
        ensures { result ≡ ended self }
    {
        Run { over: true, ..self }
    }

    // A step that prints nothing.
    fn say_nothing(self) -> Step
        ensures { result ≡ silent self }
    {
        Step {
            run: self,
            output: no_output(),
        }
    }

    // Opens the desk with the records gathered; a refusal ends the run.
    fn open_desk(self) -> Step
        ensures { result ≡ opened self }
    {
        let watch = self.gathered.watch;
        let answer = open_records(watch, self.gathered.count, self.down, self.up);
        let code = answer.code();
        let desk = answer.desk;
        Step {
            run: self.with_desk(self.at, code != 0, desk),
            output: word_text(b"open ", usize::from(code)),
        }
    }

    // Makes a call on the desk's record, lending it room for the longest.
    fn make_call(self, call: Call, at: usize) -> Step
        ensures { result ≡ performed call at self }
    {
        let mut frames = [0u8; LONGEST_FRAMES];
        let done = perform(self.desk, call, &mut frames);
        let desk = done.desk;
        Step {
            run: self.with_desk(at, self.over, desk),
            output: call_text(call_kind(call), done.code(), &frames[..done.count()]),
        }
    }

    // A call on the open desk; the first one opens it, and is met again.
    fn take_call(self, call: Call, at: usize) -> Step
        ensures { result ≡ call_taken call at self }
    {
        if self.called {
            return self.make_call(call, at);
        }
        self.open_desk()
    }

    // The strip's end: the desk is opened if no call came, and the end is met again.
    fn take_end(self) -> Step
        ensures { result ≡ end_taken self }
    {
        if self.called {
            return self.ended().say_nothing();
        }
        self.open_desk()
    }

    #[tactic(auto, unfolding(crate::specs::Run::faulted, octets::specs::Ascii::ascii))]
    fn take_fault(self, at: usize) -> Step
        ensures { result ≡ faulted at self }
    {
        Step {
            run: self.ended(),
            output: word_text(b"strip fault ", at),
        }
    }

    // Takes a record, which ends at an offset.
    fn take_record(self, found: Record, at: usize) -> Step
        ensures { result ≡ taken found at self }
    {
        match found {
            Record::Limits { down, up } => self.with_limits(at, down, up).say_nothing(),
            Record::Watch(watch) => self.with_watch(at, watch).say_nothing(),
            Record::Call(call) => self.take_call(call, at),
        }
    }
}

// The next step of a run that is not over.
#[tactic(auto, unfolding(crate::specs::Run::stepped))]
pub fn next_step(run: Run, s: &[u8]) -> Step
    ensures { result ≡ stepped s.now run }
{
    match record_at(s, run.at, run.called) {
        Ok(Some(Decoded { found, offset })) => run.take_record(found, offset),
        Ok(None) => run.take_end(),
        Err(at) => run.take_fault(at),
    }
}
