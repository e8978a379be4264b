// The walk of a payload by one loop, in which no function calls itself, even through others (document 02, request 09): for the
// levels around the innermost there is a row of levels. It answers what `walk::payload` answers.
ghost use Rattle.std.specs.Prelude.{◌≡◌};
ghost use Rattle.bencode.specs.Depth.{largest_depth};
ghost use Rattle.bencode.specs.Fault.{code_of, offset_of};
ghost use Rattle.bencode.specs.Flat.{opened};
ghost use Rattle.bencode.specs.Walk.{value_at, payload_at, payload_code, payload_offset};

use super::classes::Classes;
use super::fault::Fault;
use super::key::Seen;
use super::profile::Profile;
use super::tokens::{Bracket, LEVELS, Level, Token, token_at};
use super::walk::whole;

// The level that a list or a dictionary opens, whose values or entries start at an offset.
fn opened(bracket: Bracket, first: usize) -> Level
    ensures { result ≡ opened bracket first }
{
    Level {
        bracket,
        seen: Seen::none(first),
    }
}

// What the value that a payload starts with comes to. Each turn takes one token. The row has the levels around the innermost one,
// as many as the depth; valued says that a value has to stand next.
// Stays: a loop, since each token decides the levels under which the next is taken.
fn first_value(s: &[u8], profile: Profile) -> Result<usize, Fault>
    ensures { result ≡ value_at profile largest_depth s.now 0 }
{
    let classes = Classes::new();
    let mut level = opened(Bracket::List, 0);
    let mut row = [level; LEVELS];
    let mut depth: usize = 0;
    let mut at: usize = 0;
    let mut valued = true;
    loop {
        let token = token_at(s, at, depth, level, valued, profile, &classes)?;
        match token {
            Token::Done(end) => return Ok(end),
            Token::Close => {
                depth -= 1;
                level = row[depth];
                at += 1;
            }
            Token::Key { seen, end } => {
                let bracket = Bracket::Dictionary;
                level = Level { bracket, seen };
                at = end;
                valued = true;
            }
            Token::Open(bracket) => {
                at += 1;
                let inner = opened(bracket, at);
                row[depth] = level;
                depth += 1;
                level = inner;
                valued = false;
            }
            Token::Scalar(end) => {
                at = end;
                valued = false;
            }
        }
    }
}

// Walks a payload, which is one value and nothing after it.
pub fn payload(s: &[u8], profile: Profile) -> Result<usize, Fault>
    ensures answer { result ≡ payload_at profile s.now }
    ensures numbers { (code_of result ≡ payload_code profile s.now) × (offset_of result ≡ payload_offset profile s.now) }
{
    whole(s, first_value(s, profile))
}
