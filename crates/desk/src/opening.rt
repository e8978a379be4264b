// Opening the desk.
ghost use Rattle.std.specs.Prelude.{◌≡◌, length, take};
ghost use Rattle.desk.specs.Opening.{opening, opening_of, opened_numbers};

use super::done::{Opened, OpeningRefusal};
use super::limit::is_limit;
use super::lists::{check_list, padded};
use super::record::{Desk, closed_desk};
use super::watch::{PLACES, Watch};

// The desk of an accepted opening.
// Stays: two limits and no struct of both, as document 01's opening is handed two numbers and its record holds two.
fn open_desk(list: &[Watch], down: i32, up: i32) -> Result<Desk, OpeningRefusal>
    ensures { opening_of result ≡ opening (length list.now) list.now down up }
{
    if PLACES < list.len() {
        return Err(OpeningRefusal::List);
    }
    if !is_limit(down) || !is_limit(up) {
        return Err(OpeningRefusal::Limit);
    }
    check_list(list)?;
    Ok(Desk {
        opened: true,
        count: list.len(),
        down,
        up,
        override_id: 0,
        watch: padded(list),
    })
}

// What an opening returns: a closed desk where it is refused.
fn opened(opening: Result<Desk, OpeningRefusal>) -> Opened
    ensures { opened_numbers result ≡ opening_of opening }
{
    match opening {
        Ok(desk) => Opened {
            answer: Ok(()),
            desk,
        },
        Err(refusal) => Opened {
            answer: Err(refusal),
            desk: closed_desk(),
        },
    }
}

// Opens the desk with the watch list that is lent.
pub fn open(list: &[Watch], down: i32, up: i32) -> Opened
    ensures { opened_numbers result ≡ opening (length list.now) list.now down up }
{
    opened(open_desk(list, down, up))
}

// Opens with the first `count` records of an array; those past them are passed over, and a count over the places is refused.
// A caller that holds no slice of structs calls this one.
// Stays: an array and a count, as open_records promises an answer for any count.
pub fn open_records(watch: [Watch; PLACES], count: usize, down: i32, up: i32) -> Opened
    ensures { opened_numbers result ≡ opening count (take count watch) down up }
{
    match watch.get(..count) {
        Some(list) => open(list, down, up),
        None => opened(Err(OpeningRefusal::List)),
    }
}
