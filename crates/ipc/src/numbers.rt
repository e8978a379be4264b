// The reader's answer as numbers, for callers that take no enum. What an answer does not name is 0.
ghost use Rattle.std.specs.Prelude.{◌≡◌};
ghost use Rattle.ipc.specs.Answer.{Answer, nothing, versions, refused, off_format, accepted, accepted_handshake, tag_number, content_of, refusal_answer, answer_by};
ghost use Rattle.ipc.specs.Numbers.{placed, numbered, value_numbers, numbers_of};

use super::ids::Tag;
use super::reading::{CodedRefusal, Frame, Message, Refusal, Value};
use super::versions::Versions;

// The value of an answer, by its kind.
// Stays: the C interface has the kinds as numbers.
#[repr(C)]
#[derive(Clone, Copy)]
pub struct ValueNumbers {
    pub kind: u8,
    pub min: u32,
    pub max: u32,
    pub start: usize,
    pub length: usize,
    pub integer: i64,
}

impl ValueNumbers {
    pub const NOTHING: u8 = 0;

    pub const INTEGER: u8 = 1;
    // A string's text.
    pub const TEXT: u8 = 2;
    // A whole list, or the value of an unlisted key.
    pub const PART: u8 = 3;
    // A handshake's versions.
    pub const VERSIONS: u8 = 4;

    // No value.
    const NONE: ValueNumbers = ValueNumbers {
        kind: ValueNumbers::NOTHING,
        min: 0,
        max: 0,
        start: 0,
        length: 0,
        integer: 0,
    };

    // A part of the frame.
    fn of_part(kind: u8, start: usize, length: usize) -> ValueNumbers
        ensures { result ≡ placed kind start length }
    {
        ValueNumbers {
            kind,
            start,
            length,
            ..ValueNumbers::NONE
        }
    }
}

impl From<Value> for ValueNumbers {
    ghost from_gives = { λ v n. n ≡ value_numbers (content_of v) };

    fn from(value: Value) -> ValueNumbers {
        match value {
            Value::Nothing => ValueNumbers::NONE,
            Value::Integer(integer) => ValueNumbers {
                kind: ValueNumbers::INTEGER,
                integer,
                ..ValueNumbers::NONE
            },
            Value::Text { offset, length } => {
                ValueNumbers::of_part(ValueNumbers::TEXT, offset, length)
            }
            Value::Part { offset, length } => {
                ValueNumbers::of_part(ValueNumbers::PART, offset, length)
            }
        }
    }
}

impl From<Versions> for ValueNumbers {
    ghost from_gives = { λ v n. n ≡ value_numbers (versions v.min v.max) };

    fn from(versions: Versions) -> ValueNumbers {
        ValueNumbers {
            kind: ValueNumbers::VERSIONS,
            min: versions.min(),
            max: versions.max(),
            ..ValueNumbers::NONE
        }
    }
}

// The seven fields of document 01's answer. A refusal is of no kind, so that its kind is never taken for a message's.
// Stays: the C interface has codes and kinds as numbers, and 0 for what is not there.
#[repr(C)]
#[derive(Clone, Copy)]
pub struct Numbers {
    pub code: u8,
    pub kind: u8,
    pub key: u8,
    pub tag: u32,
    pub offset: usize,
    pub consumed: usize,
    pub value: ValueNumbers,
}

impl Numbers {
    pub const NO_KIND: u8 = 0;

    pub const MESSAGE: u8 = 1;

    pub const HANDSHAKE: u8 = 2;
    // The one refusal that has a key and a tag: the value is off its format.
    pub const OFF_FORMAT: u8 = 22;

    // An answer that names nothing.
    const NONE: Numbers = Numbers {
        code: 0,
        kind: Numbers::NO_KIND,
        key: 0,
        tag: 0,
        offset: 0,
        consumed: 0,
        value: ValueNumbers::NONE,
    };

    // The numbers of a refusal with any code and offset.
    pub fn of_refusal(code: u8, offset: usize) -> Numbers
        ensures { result ≡ numbers_of (refused code offset) }
    {
        Numbers {
            code,
            offset,
            ..Numbers::NONE
        }
    }
}

fn tag_number(tag: Option<Tag>) -> u32
    ensures { result ≡ tag_number tag }
{
    tag.map_or(0, |t| t.number())
}

fn of_message(message: Message, consumed: usize) -> Numbers
    ensures { result ≡ numbers_of (accepted consumed message.key (tag_number message.tag) (content_of message.value)) }
{
    Numbers {
        kind: Numbers::MESSAGE,
        key: message.key,
        tag: tag_number(message.tag),
        consumed,
        value: ValueNumbers::from(message.value),
        ..Numbers::NONE
    }
}

fn of_handshake(versions: Versions, consumed: usize) -> Numbers
    ensures { result ≡ numbers_of (accepted_handshake consumed versions.min versions.max) }
{
    Numbers {
        kind: Numbers::HANDSHAKE,
        consumed,
        value: ValueNumbers::from(versions),
        ..Numbers::NONE
    }
}

fn of_off_format(key: u8, tag: Option<Tag>) -> Numbers
    ensures { result ≡ numbers_of (off_format key (tag_number tag)) }
{
    Numbers {
        code: Numbers::OFF_FORMAT,
        key,
        tag: tag_number(tag),
        ..Numbers::NONE
    }
}

// A refusal that has an answer.
pub trait IntoNumbers {
    ghost answer: { Self → Answer };

    fn into_numbers(self) -> Numbers
        ensures { result ≡ numbers_of (answer self) };
}

impl IntoNumbers for Refusal {
    ghost answer = { refusal_answer };

    fn into_numbers(self) -> Numbers {
        match self {
            Refusal::Incomplete => Numbers::of_refusal(1, 0),
            Refusal::NoDigit(at) => Numbers::of_refusal(2, at),
            Refusal::OverProtocol => Numbers::of_refusal(3, 0),
            Refusal::OverLimit => Numbers::of_refusal(4, 0),
            Refusal::Payload(f) => Numbers::of_refusal(f.cause.code(), f.offset),
            Refusal::NoMessage => Numbers::of_refusal(20, 0),
            Refusal::NoHandshake => Numbers::of_refusal(21, 0),
            Refusal::OffFormat { key, tag } => of_off_format(key, tag),
        }
    }
}

impl IntoNumbers for CodedRefusal {
    ghost answer = { λ r. refused r.code r.offset };

    fn into_numbers(self) -> Numbers {
        Numbers::of_refusal(self.code, self.offset)
    }
}

// The numbers of a reading, whatever its refusals are.
pub fn numbers_of<E: IntoNumbers>(reading: Result<Frame, E>) -> Numbers
    ensures { result ≡ numbers_of (answer_by E.answer reading) }
{
    match reading {
        Ok(Frame::Message { message, consumed }) => of_message(message, consumed),
        Ok(Frame::Handshake { versions, consumed }) => of_handshake(versions, consumed),
        Err(refusal) => refusal.into_numbers(),
    }
}
