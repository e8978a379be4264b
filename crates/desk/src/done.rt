// What a call and an opening answer.
ghost use Rattle.std.specs.Prelude.{◌≡◌};
ghost use Rattle.desk.specs.Codes.{refusal_code, opening_refusal_code, done_code, done_count, opened_code};

use super::record::Desk;

// The most bytes that a call writes.
pub const LONGEST_FRAMES: usize = 479;

// What an accepted call did.
#[derive(Clone, Copy)]
pub enum Accepted {
    // It wrote its frames, so many bytes.
    Sent(usize),
    // It is recorded, and nothing is written while an override stands. Document 01 calls it held.
    Deferred,
}

// Why a call is refused.
#[derive(Clone, Copy)]
pub enum Refusal {
    // A limit out of range.
    Limit,
    // An ID that is not watched.
    Unwatched,
    // A raise while an override stands.
    Stands,
    // A clear while none stands.
    NoneStands,
    // A buffer shorter than the frames.
    Room,
    // A record that is closed or breaks a rule of the record.
    Record,
}

impl Refusal {
    // Document 01's number.
    pub fn code(self) -> u8
        ensures { result ≡ refusal_code self }
    {
        match self {
            Refusal::Limit => 30,
            Refusal::Unwatched => 31,
            Refusal::Stands => 32,
            Refusal::NoneStands => 33,
            Refusal::Room => 34,
            Refusal::Record => 38,
        }
    }
}

// A call's answer, and the record after it: as it was handed in where the call is refused.
#[derive(Clone, Copy)]
pub struct Done {
    pub answer: Result<Accepted, Refusal>,
    pub desk: Desk,
}

impl Done {
    // Document 01's number.
    pub fn code(&self) -> u8
        ensures { result ≡ done_code self.now }
    {
        match self.answer {
            Ok(Accepted::Sent(_)) => 0,
            Ok(Accepted::Deferred) => 1,
            Err(refusal) => refusal.code(),
        }
    }

    // How many bytes the call wrote.
    pub fn count(&self) -> usize
        ensures { result ≡ done_count self.now }
    {
        match self.answer {
            Ok(Accepted::Sent(count)) => count,
            _ => 0,
        }
    }
}

// Why an opening is refused.
#[derive(Clone, Copy)]
pub enum OpeningRefusal {
    // A limit out of range.
    Limit,
    // More records than places.
    List,
    // An ID out of range.
    IdRange,
    // An ID again.
    IdAgain,
}

impl OpeningRefusal {
    // Document 01's number.
    pub fn code(self) -> u8
        ensures { result ≡ opening_refusal_code self }
    {
        match self {
            OpeningRefusal::Limit => 30,
            OpeningRefusal::List => 35,
            OpeningRefusal::IdRange => 36,
            OpeningRefusal::IdAgain => 37,
        }
    }
}

// An opening's answer and the desk, which is closed where the opening is refused.
// Stays: a struct beside Done, as one struct for both would need a trait for the numbers of four types.
#[derive(Clone, Copy)]
pub struct Opened {
    pub answer: Result<(), OpeningRefusal>,
    pub desk: Desk,
}

impl Opened {
    // Document 01's number.
    pub fn code(&self) -> u8
        ensures { result ≡ opened_code self.now }
    {
        match self.answer {
            Ok(()) => 0,
            Err(refusal) => refusal.code(),
        }
    }
}
