// The faults of a payload, and their numbers (document 01, 'What the reader says'; document 02 for 10 and 11).
ghost use Rattle.std.specs.Prelude.{◌≡◌};
ghost use Rattle.bencode.specs.Fault.{cause_code};

// Why a payload is at fault.
#[derive(Clone, Copy, PartialEq, Eq)]
pub enum Cause {
    // A byte cannot stand there, or the payload ends too soon.
    Syntax,
    // A well-formed integer is outside the range.
    Range,
    // A list or a dictionary opens too deep.
    Depth,
    // A key comes twice in one dictionary.
    RepeatedKey,
    // Bytes follow the value.
    Trailing,
    // A key is no text: not well-formed UTF-8, or with a zero byte.
    IllFormedKey,
    // A key is not above the earlier ones, in the strict profile.
    UnsortedKey,
}

impl Cause {
    // The number of a cause.
    pub fn code(self) -> u8
        ensures { result ≡ cause_code self }
    {
        match self {
            Cause::Syntax => 5,
            Cause::Range => 6,
            Cause::Depth => 7,
            Cause::RepeatedKey => 8,
            Cause::Trailing => 9,
            Cause::IllFormedKey => 10,
            Cause::UnsortedKey => 11,
        }
    }
}

// The first fault of a payload, with the offset of the byte at fault from the payload's start.
#[derive(Clone, Copy)]
pub struct Fault {
    pub cause: Cause,
    pub offset: usize,
}
