// Tokens of a payload, as the walk by one loop takes them (document 02, request 09).
ghost use Rattle.std.specs.Prelude.{◌≡◌};
ghost use Rattle.octets.specs.Bytes.{byte_at};
ghost use Rattle.bencode.specs.Classes.{class_of};
ghost use Rattle.bencode.specs.KeySearch.{Sound};
ghost use Rattle.bencode.specs.Integers.{integer_at, number_end};
ghost use Rattle.bencode.specs.Tokens.{key_token, scalar_token, open_token, value_token, token_at};

use super::classes::Classes;
use super::depth::Depth;
use super::fault::{Cause, Fault};
use super::integers::integer;
use super::key::{Seen, check_key};
use super::profile::Profile;
use super::strings::string;
use super::text::is_text;
use super::text_keys::ill_formed_key;

// How many places the row of levels has: as many as lists and dictionaries may stand in each other.
pub const LEVELS: usize = Depth::LARGEST as usize;

// What holds other values.
#[derive(Clone, Copy)]
pub enum Bracket {
    List,
    Dictionary,
}

// A level, and what is kept of its keys where it is a dictionary.
#[derive(Clone, Copy)]
pub struct Level {
    pub bracket: Bracket,
    pub seen: Seen,
}

// What stands at an offset.
#[derive(Clone, Copy)]
pub enum Token {
    // Nothing more: the payload's value ends at an offset.
    Done(usize),
    // The `e` of a list or a dictionary.
    Close,
    // The key of an entry: what is kept after it, and the offset of its value.
    Key { seen: Seen, end: usize },
    // The first byte of a list or a dictionary.
    Open(Bracket),
    // A string or an integer, by the offset after it.
    Scalar(usize),
}

// The key at an offset, which is checked against the earlier ones.
fn key_token(s: &[u8], at: usize, seen: Seen, profile: Profile) -> Result<Token, Fault>
    requires { Sound s.now seen }
    ensures { result ≡ key_token profile s.now seen at }
{
    let text = string(s, at)?;
    if !is_text(&s[text.start..text.end]) {
        return Err(ill_formed_key(at));
    }
    let seen = check_key(s, seen, at, text, profile)?;
    Ok(Token::Key {
        seen,
        end: text.end,
    })
}

// The list or dictionary that opens at an offset, in so many others.
fn open_token(bracket: Bracket, at: usize, depth: usize) -> Result<Token, Fault>
    ensures { result ≡ open_token bracket depth at }
{
    if depth == LEVELS {
        return Err(Fault {
            cause: Cause::Depth,
            offset: at,
        });
    }
    Ok(Token::Open(bracket))
}

// The integer at an offset.
fn integer_token(s: &[u8], at: usize) -> Result<Token, Fault>
    ensures { result ≡ scalar_token (number_end (integer_at s.now at)) }
{
    let number = integer(s, at)?;
    Ok(Token::Scalar(number.end))
}

// The value at an offset, whose first byte has a class.
fn value_token(s: &[u8], at: usize, class: u8, depth: usize) -> Result<Token, Fault>
    requires { class ≡ class_of (byte_at s.now at) }
    ensures { result ≡ value_token s.now depth at }
{
    if class == b'l' {
        return open_token(Bracket::List, at, depth);
    }
    if class == b'd' {
        return open_token(Bracket::Dictionary, at, depth);
    }
    if class == b'i' {
        return integer_token(s, at);
    }
    let text = string(s, at)?;
    Ok(Token::Scalar(text.end))
}

// The token at an offset, or the fault there, in so many lists and dictionaries, of which the innermost is a level; valued says that
// a value has to stand there.
// Stays: `valued` is one of two cases with nothing beside it.
#[tactic(auto, unfolding(crate::specs::Tokens::token_at), using(crate::proofs::walking::ClassLaws::sign_class))]
pub fn token_at(
    s: &[u8],
    at: usize,
    depth: usize,
    level: Level,
    valued: bool,
    profile: Profile,
    classes: &Classes,
) -> Result<Token, Fault>
    requires { Sound s.now level.seen }
    ensures { result ≡ token_at profile s.now depth level valued at }
{
    let class = classes.at(s, at);
    if !valued {
        if depth == 0 {
            return Ok(Token::Done(at));
        }
        if class == b'e' {
            return Ok(Token::Close);
        }
        if matches!(level.bracket, Bracket::Dictionary) {
            return key_token(s, at, level.seen, profile);
        }
    }
    value_token(s, at, class, depth)
}
