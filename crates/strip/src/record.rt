// The records of a strip.
ghost use Rattle.std.specs.Prelude.{◌≡◌, ◌+◌, ◌≤◌, ◌<◌, length, MatchResult};
ghost use Rattle.strip.specs.Record.{kind_number, body_length, may_stand, call_of, call_kind, watch_of, body_at, end_at, whole_record_at, record_at};

use super::number::{limit_at, number_at};
use desk::{Call, Watch};

// A record of a strip.
#[derive(Clone, Copy)]
pub enum Record {
    Limits { down: i32, up: i32 },
    Watch(Watch),
    Call(Call),
}

// A record and the offset after it.
#[derive(Clone, Copy)]
pub struct Decoded {
    pub found: Record,
    pub offset: usize,
}

// The kinds of records, by their numbers from 0 on.
#[derive(Clone, Copy)]
enum Kind {
    Limits,
    Down,
    Up,
    Start,
    Stop,
    Raise,
    Clear,
    Watch,
}

// A number that no kind has.
#[derive(Clone, Copy)]
struct NoKind;

impl TryFrom<u8> for Kind {
    type Error = NoKind;

    ghost try_from_gives = { λ number r. MatchResult r (λ kind. kind_number kind ≡ number) (λ e. 7 < number) };

    fn try_from(number: u8) -> Result<Kind, NoKind> {
        match number {
            0 => Ok(Kind::Limits),
            1 => Ok(Kind::Down),
            2 => Ok(Kind::Up),
            3 => Ok(Kind::Start),
            4 => Ok(Kind::Stop),
            5 => Ok(Kind::Raise),
            6 => Ok(Kind::Clear),
            7 => Ok(Kind::Watch),
            _ => Err(NoKind),
        }
    }
}

// How many bytes a strip may have.
pub const LONGEST_STRIP: usize = 16384;

#[tactic(auto, unfolding(crate::specs::Record::body_length, crate::specs::Record::may_stand, crate::specs::Record::body_at, crate::specs::Record::call_of))]
impl Kind {
    // How long its body is.
    fn body_length(self) -> usize
        ensures { (result ≡ body_length (kind_number self)) × (result ≤ 8) }
    {
        match self {
            Kind::Limits => 8,
            Kind::Clear => 0,
            Kind::Watch => 5,
            Kind::Down | Kind::Up | Kind::Start | Kind::Stop | Kind::Raise => 4,
        }
    }

    // May a record of it stand, as the first one or not, after a call or before any.
    // Stays: two marks of where the record stands, with nothing beside them.
    fn may_stand(self, first: bool, called: bool) -> bool
        ensures { result ≡ may_stand first called (kind_number self) }
    {
        match self {
            Kind::Limits => first,
            Kind::Watch => !first && !called,
            _ => !first,
        }
    }

    // The record of it whose body starts at an offset and is all there, or none where a watch record's mark is over 1.
    fn body_at(self, s: &[u8], at: usize) -> Option<Record>
        requires { at + body_length (kind_number self) ≤ length s.now }
        ensures { result ≡ body_at (kind_number self) s.now at }
    {
        let call = match self {
            Kind::Limits => {
                let down = limit_at(s, at);
                let up = limit_at(s, at + 4);
                return Some(Record::Limits { down, up });
            }
            Kind::Watch => return watch_at(s, at),
            Kind::Down => Call::Down(limit_at(s, at)),
            Kind::Up => Call::Up(limit_at(s, at)),
            Kind::Start => Call::Start(number_at(s, at)),
            Kind::Stop => Call::Stop(number_at(s, at)),
            Kind::Raise => Call::Raise(number_at(s, at)),
            Kind::Clear => Call::Clear,
        };
        Some(Record::Call(call))
    }
}

// The kind of a call, as a number.
pub fn call_kind(call: Call) -> u8
    ensures { result ≡ call_kind call }
{
    let kind = match call {
        Call::Down(_) => Kind::Down,
        Call::Up(_) => Kind::Up,
        Call::Start(_) => Kind::Start,
        Call::Stop(_) => Kind::Stop,
        Call::Raise(_) => Kind::Raise,
        Call::Clear => Kind::Clear,
    };
    kind as u8
}

// A watch record whose mark is 0 or 1.
#[tactic(auto, unfolding(crate::specs::Record::watch_of))]
fn watch_at(s: &[u8], at: usize) -> Option<Record>
    requires { at + 5 ≤ length s.now }
    ensures { result ≡ watch_of s.now at }
{
    let id = number_at(s, at);
    match s[at + 4] {
        0 => Some(Record::Watch(Watch { id, running: false })),
        1 => Some(Record::Watch(Watch { id, running: true })),
        _ => None,
    }
}

// What stands past the last record: an empty strip has not even the first.
#[tactic(auto, unfolding(crate::specs::Record::end_at))]
fn end_at(at: usize) -> Result<Option<Decoded>, usize>
    ensures { result ≡ end_at at }
{
    if at == 0 { Err(0) } else { Ok(None) }
}

// The record at an offset within a strip; an error is the offset.
#[tactic(auto, unfolding(crate::specs::Record::whole_record_at, crate::specs::Record::may_stand))]
fn whole_record_at(s: &[u8], at: usize, called: bool) -> Result<Option<Decoded>, usize>
    requires { at < length s.now }
    ensures { result ≡ whole_record_at s.now at called }
{
    let Ok(kind) = Kind::try_from(s[at]) else {
        return Err(at);
    };
    if !kind.may_stand(at == 0, called) {
        return Err(at);
    }
    let body = kind.body_length();
    if s.len() - at <= body {
        return Err(at);
    }
    let found = kind.body_at(s, at + 1).ok_or(at)?;
    Ok(Some(Decoded {
        found,
        offset: at + 1 + body,
    }))
}

// The record at an offset of a strip, after a call or before any, or none at the strip's end; an error is the offset of the fault.
#[tactic(auto, unfolding(crate::specs::Record::record_at))]
pub fn record_at(s: &[u8], at: usize, called: bool) -> Result<Option<Decoded>, usize>
    ensures { result ≡ record_at s.now at called }
{
    if LONGEST_STRIP < s.len() {
        return Err(LONGEST_STRIP);
    }
    if s.len() <= at {
        return end_at(at);
    }
    whole_record_at(s, at, called)
}
