// The sorter: a payload is judged whole, and then written in order.
ghost use Rattle.std.specs.Prelude.{◌≡◌, length};
ghost use Rattle.canonical.specs.Answer.{refusal_code, refusal_offset, sort_answer, SortLeaves};
ghost use Rattle.canonical.specs.SortWalk.{sorted_payload};

use super::write::put_value;
use bencode::{Depth, Fault, Profile, payload};

// Why a payload is not sorted: it is too long, it is refused as a payload, or fewer bytes are lent than it has.
#[derive(Clone, Copy)]
pub enum SortRefusal {
    OverLimit,
    Payload(Fault),
    NoRoom,
}

impl SortRefusal {
    // The longest payload, in bytes: one that is longer is over the limit.
    pub const LARGEST: usize = 32768;

    // The documents' number.
    pub fn code(self) -> u8
        ensures { result ≡ refusal_code self }
    {
        match self {
            SortRefusal::OverLimit => 4,
            SortRefusal::Payload(f) => f.cause.code(),
            SortRefusal::NoRoom => 44,
        }
    }

    // The offset of the byte that a payload is refused for, and 0 where no byte is named.
    pub fn offset(self) -> usize
        ensures { result ≡ refusal_offset self }
    {
        match self {
            SortRefusal::Payload(f) => f.offset,
            _ => 0,
        }
    }
}

// Sorts a payload into a lent buffer, from its front on, and answers the count of the bytes written, which is that of the
// payload. Nothing is written before all is judged.
#[tactic(auto, using(crate::proofs::AnswerLaws::long_leaves, crate::proofs::AnswerLaws::fault_leaves, crate::proofs::AnswerLaws::no_room_leaves, crate::proofs::AnswerLaws::as_long))]
pub fn sort(s: &[u8], out: &mut [u8]) -> Result<usize, SortRefusal>
    ensures { SortLeaves (sort_answer (length out.old) s.now) (sorted_payload s.now) out.old result out.new }
{
    if SortRefusal::LARGEST < s.len() {
        return Err(SortRefusal::OverLimit);
    }
    if let Err(f) = payload(s, Profile::Loose) {
        return Err(SortRefusal::Payload(f));
    }
    if out.len() < s.len() {
        return Err(SortRefusal::NoRoom);
    }
    Ok(put_value(s, 0, Depth::LARGEST as usize, out, 0))
}
