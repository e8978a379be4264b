// A call made: refused, deferred, or its frames delivered.
ghost use Rattle.std.specs.Prelude.{◌≡◌, length};
ghost use Rattle.desk.specs.Calls.{outcome, Answered, Returned};

use super::call::Call;
use super::done::{Accepted, Done, LONGEST_FRAMES, Refusal};
use super::record::Desk;
use octets::put_bytes;

// What a call answers, and its frames in the lent buffer.
fn answer(d: &Desk, call: Call, out: &mut [u8]) -> Result<Accepted, Refusal>
    ensures { Answered (outcome call (length out.old) d.now) out.old result out.new }
{
    d.check(call)?;
    if d.defers(call) {
        return Ok(Accepted::Deferred);
    }
    let mut frames = [0u8; LONGEST_FRAMES];
    let n = d.put_commands(&mut frames, call);
    let short = out.len() < n;
    if short {
        return Err(Refusal::Room);
    }
    Ok(Accepted::Sent(put_bytes(out, 0, &frames[..n])))
}

// Makes a call: its answer, the record after it, and its frames in the lent buffer.
pub fn perform(d: Desk, call: Call, out: &mut [u8]) -> Done
    ensures { Returned (outcome call (length out.old) d) out.old result out.new }
{
    let answer = answer(&d, call, out);
    match answer {
        Ok(_) => Done {
            answer,
            desk: d.after(call),
        },
        // Stays: an arm of its own, so that the must-fail edit refusal_changes is refused for its record and not for its form.
        Err(Refusal::Room) => Done { answer, desk: d },
        Err(_) => Done { answer, desk: d },
    }
}
