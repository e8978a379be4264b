// The lines that a run of a strip prints.
// Stays: put by octets and not by Display, which divides by ten.
ghost use Rattle.std.specs.Prelude.{◌≡◌, ◌+◌, ◌≤◌, [], length};
ghost use Rattle.octets.specs.Put.{Wrote};
ghost use Rattle.desk.specs.Command.{longest_frames};
ghost use Rattle.strip.specs.Line.{word_text, call_line, frames_text, call_text, longest_word, longest_line, output_of};

use super::output::Output;
use octets::{put_bytes, put_decimal};

// No line.
pub fn no_output() -> Output
    ensures { result ≡ output_of [] }
{
    Output {
        bytes: [0u8; Output::ROOM],
        length: 0,
    }
}

// A line of a word and a number.
pub fn word_text(word: &[u8], n: usize) -> Output
    requires { length word.now ≤ longest_word }
    ensures { result ≡ output_of (word_text word.now n) }
{
    let mut bytes = [0u8; Output::ROOM];
    let o = put_bytes(&mut bytes, 0, word);
    let o = put_decimal(&mut bytes, o, n as u64);
    let length = put_bytes(&mut bytes, o, b"\n");
    Output { bytes, length }
}

// Puts a call's line: its kind, its code and how many bytes it wrote.
fn put_call(out: &mut [u8], kind: u8, code: u8, count: usize) -> usize
    requires { longest_line ≤ length out.old }
    ensures { Wrote out.old 0 (call_line kind code count) out.new result }
{
    let o = put_decimal(out, 0, u64::from(kind));
    let o = put_bytes(out, o, b" ");
    let o = put_decimal(out, o, u64::from(code));
    let o = put_bytes(out, o, b" ");
    let o = put_decimal(out, o, count as u64);
    put_bytes(out, o, b"\n")
}

// Puts the bytes that a call wrote, on a line; no line where it wrote none.
fn put_frames(out: &mut [u8], at: usize, frames: &[u8]) -> usize
    requires { at + length (frames_text frames.now) ≤ length out.old }
    ensures { Wrote out.old at (frames_text frames.now) out.new result }
{
    if frames.is_empty() {
        return at;
    }
    let o = put_bytes(out, at, frames);
    put_bytes(out, o, b"\n")
}

// A call's line, and the bytes it wrote on the next.
pub fn call_text(kind: u8, code: u8, frames: &[u8]) -> Output
    requires { length frames.now ≤ longest_frames }
    ensures { result ≡ output_of (call_text kind code frames.now) }
{
    let mut bytes = [0u8; Output::ROOM];
    let o = put_call(&mut bytes, kind, code, frames.len());
    let length = put_frames(&mut bytes, o, frames);
    Output { bytes, length }
}
