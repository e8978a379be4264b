// The walk of a payload.
ghost use Rattle.std.specs.Prelude.{◌≡◌};
ghost use Rattle.bencode.specs.Walk.{payload_at};
ghost use Rattle.c_api.specs.Walk.{profile_of, walk_numbers};

use bencode::{Fault, Profile};

// The fault's code and offset, or 0 and the payload's length.
// Stays: the C interface has numbers.
#[repr(C)]
#[derive(Clone, Copy)]
pub struct WalkAnswer {
    pub code: u8,
    pub offset: usize,
}

// Stays: the C interface has a mark for the profile.
fn profile(strict: bool) -> Profile
    ensures { result ≡ profile_of strict }
{
    if strict {
        Profile::Strict
    } else {
        Profile::Loose
    }
}

fn walk_answer_of(walk: Result<usize, Fault>) -> WalkAnswer
    ensures { result ≡ walk_numbers walk }
{
    match walk {
        Ok(offset) => WalkAnswer { code: 0, offset },
        Err(f) => WalkAnswer {
            code: f.cause.code(),
            offset: f.offset,
        },
    }
}

// Walks a payload of any length in a profile: where its fault is.
#[unsafe(no_mangle)]
pub extern "C" fn bogsilver_walk(s: &[u8], strict: bool) -> WalkAnswer
    ensures { result ≡ walk_numbers (payload_at (profile_of strict) s.now) }
{
    walk_answer_of(bencode::payload(s, profile(strict)))
}

// The same by one loop, which needs little stack.
#[unsafe(no_mangle)]
pub extern "C" fn bogsilver_walk_flat(s: &[u8], strict: bool) -> WalkAnswer
    ensures { result ≡ walk_numbers (payload_at (profile_of strict) s.now) }
{
    walk_answer_of(bencode::flat::payload(s, profile(strict)))
}
