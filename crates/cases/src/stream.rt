// The stream: cases taken and answered one by one.
ghost use Rattle.std.specs.Prelude.{◌≡◌, IfOk, is_ok};
ghost use Rattle.std.specs.Io.KnownBytes.{IsAtEnd};
ghost use Rattle.std.specs.Counts.{IsPrefixLen};
ghost use Rattle.cases.specs.declared.stream.Stop.TheVariants.{Io};

use input::read_full;
use std::io;
use std::io::{Read, Write};

// A case that is taken from the stream, its body at the start of a buffer.
#[derive(Clone, Copy)]
pub struct Taken {
    pub operation: u8,
    pub length: usize,
}

// A case as it is answered.
#[derive(Clone, Copy)]
pub struct Case<'a> {
    pub operation: u8,
    pub body: &'a [u8],
}

// Why no case is answered.
#[derive(Clone, Copy)]
pub enum Stop {
    // The stream ends.
    End,
    // The case is cut or too long, its operation is none, or its body does not fit.
    Fault,
    Io(io::Error),
}

impl From<io::Error> for Stop {
    ghost from_gives = { λ e stop. stop ≡ Io e };

    fn from(e: io::Error) -> Stop {
        Stop::Io(e)
    }
}

// The most bytes of a body, and the most cases of a stream: bounded so that a program is seen to end; no stream has so many.
pub const ROOM: usize = 131072;

const MOST: u32 = 4000000000;

// Takes the next case from the stream, its body to the start of a buffer.
pub fn take_case<R: Read>(input: &mut R, body: &mut [u8]) -> Result<Taken, Stop>
    ensures length { IfOk result (λ taken. IsPrefixLen taken.length body.new) }
    ensures end { result ≡ Err Stop.End → IsAtEnd (R.remaining input.new) }
{
    let mut head = [0u8; 5];
    let got = read_full(input, &mut head)?;
    if got == 0 {
        return Err(Stop::End);
    }
    if got < head.len() {
        return Err(Stop::Fault);
    }
    let [operation, a, b, c, d] = head;
    let length = u32::from_le_bytes([a, b, c, d]) as usize;
    if body.len() < length {
        return Err(Stop::Fault);
    }
    if read_full(input, &mut body[..length])? < length {
        return Err(Stop::Fault);
    }
    Ok(Taken { operation, length })
}

// Whether to go on after a case: it was answered. Says so where it is at fault.
pub fn go_on<W: Write>(out: &mut W, answered: Result<(), Stop>) -> io::Result<bool>
    ensures { IfOk result (λ on. on ≡ is_ok answered) }
{
    match answered {
        Ok(()) => Ok(true),
        Err(Stop::End) => Ok(false),
        Err(Stop::Fault) => {
            out.write_all(b"case fault\n")?;
            Ok(false)
        }
        Err(Stop::Io(e)) => Err(e),
    }
}

// Answers a stream of cases up to its end or to the first that is not answered.
pub fn answer_cases<R: Read, W: Write, F>(
    input: &mut R,
    out: &mut W,
    mut answer: F,
) -> io::Result<()>
where
    F: FnMut(&mut W, Case<'_>) -> Result<(), Stop>,
    requires { F.IsAlwaysCallable answer }
{
    let mut body = [0u8; ROOM];
    for _ in 0..MOST {
        let answered = answer_next(input, out, &mut body, &mut answer);
        if !go_on(out, answered)? {
            break;
        }
    }
    Ok(())
}

// Takes and answers the next case.
fn answer_next<R: Read, W: Write, F>(
    input: &mut R,
    out: &mut W,
    body: &mut [u8],
    answer: &mut F,
) -> Result<(), Stop>
where
    F: FnMut(&mut W, Case<'_>) -> Result<(), Stop>,
    requires { F.IsAlwaysCallable answer.old }
    ensures { F.IsAlwaysCallable answer.new }
{
    let taken = take_case(input, body)?;
    answer(
        out,
        Case {
            operation: taken.operation,
            body: &body[..taken.length],
        },
    )
}
