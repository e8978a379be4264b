// What reading a frame answers.
ghost use Rattle.std.specs.Prelude.{◌≡◌};
ghost use Rattle.ipc.specs.declared.reading.Refusal.{Refusal};

use super::ids::Tag;
use super::versions::Versions;
use bencode::Fault;

// The value of a message. Offsets count from the frame's first byte.
#[derive(Clone, Copy)]
pub enum Value {
    // An ignored value.
    Nothing,
    Integer(i64),
    // A string's text.
    Text { offset: usize, length: usize },
    // A whole list, or the value of an unlisted key.
    Part { offset: usize, length: usize },
}

// A message: the number of its key, its tag and its value.
// Stays: a key is its number in the table of keys.
#[derive(Clone, Copy)]
pub struct Message {
    pub key: u8,
    pub tag: Option<Tag>,
    pub value: Value,
}

// A frame that is accepted, and how many bytes it has.
#[derive(Clone, Copy)]
pub enum Frame {
    Message { message: Message, consumed: usize },
    Handshake { versions: Versions, consumed: usize },
}

// Why a frame is refused.
#[derive(Clone, Copy)]
pub enum Refusal {
    // The frame is not all there.
    Incomplete,
    // A header byte is no hex digit.
    NoDigit(usize),
    // The payload is longer than the protocol has.
    OverProtocol,
    // The payload is longer than this library takes.
    OverLimit,
    // The payload is not one bencoded value.
    Payload(Fault),
    // Neither a message nor a dictionary.
    NoMessage,
    // A dictionary that is no handshake.
    NoHandshake,
    // A listed key's value is off its format.
    OffFormat { key: u8, tag: Option<Tag> },
}

impl From<Fault> for Refusal {
    ghost from_gives = { λ f r. r ≡ Refusal.Payload f };

    fn from(f: Fault) -> Refusal {
        Refusal::Payload(f)
    }
}

// A refusal by its code and offset alone.
// Stays: its code is a number, since it may be any.
#[derive(Clone, Copy)]
pub struct CodedRefusal {
    pub code: u8,
    pub offset: usize,
}
