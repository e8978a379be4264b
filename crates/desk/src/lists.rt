// The watch list: which IDs it has, its first fault, and which of them a start or stop lists.
ghost use Rattle.std.specs.Prelude.{◌≡◌, []};
ghost use Rattle.desk.specs.Codes.{opening_check_code};
ghost use Rattle.desk.specs.Watch.{is_id, has, place, list_fault, unused, padded, picked};

use super::done::OpeningRefusal;
use super::watch::{PLACES, Watch};
use ipc::TorrentId;

// Which of the watched transfers a start or stop lists: all but one, that one alone, those desired running, or those desired
// stopped.
#[derive(Clone, Copy)]
pub enum Pick {
    But(u32),
    Only(u32),
    Running,
    Stopped,
}

impl Pick {
    // Is a record listed.
    pub fn picks(self, w: Watch) -> bool
        ensures { result ≡ picked self w }
    {
        match self {
            Pick::But(x) => w.id != x,
            Pick::Only(x) => w.id == x,
            Pick::Running => w.running,
            Pick::Stopped => !w.running,
        }
    }
}

// Is a number a torrent ID.
pub fn is_id(id: u32) -> bool
    ensures { result ≡ is_id id }
{
    TorrentId::new(i64::from(id)).is_some()
}

// The place of an ID; the number of records where it is not there.
pub fn place_of(list: &[Watch], id: u32) -> usize
    ensures { result ≡ place id list.now }
{
    list.iter().position(|w| w.id == id).unwrap_or(list.len())
}

// Is an ID among the records.
pub fn has_id(list: &[Watch], id: u32) -> bool
    ensures { result ≡ has id list.now }
{
    list.iter().any(|w| w.id == id)
}

// Tests the records one by one: an ID out of range, or an ID again.
pub fn check_list(list: &[Watch]) -> Result<(), OpeningRefusal>
    ensures { opening_check_code result ≡ list_fault [] list.now }
{
    for (i, w) in list.iter().enumerate() {
        if !is_id(w.id) {
            return Err(OpeningRefusal::IdRange);
        }
        if has_id(&list[..i], w.id) {
            return Err(OpeningRefusal::IdAgain);
        }
    }
    Ok(())
}

// Is every place empty.
pub fn are_unused(places: &[Watch]) -> bool
    ensures { result ≡ unused places.now }
{
    places.iter().all(|w| *w == Watch::EMPTY)
}

// The desk's places: the records, and empty places after them.
pub fn padded(list: &[Watch]) -> [Watch; PLACES]
    ensures { result ≡ padded list.now }
{
    let n = list.len().min(PLACES);
    let mut places = [Watch::EMPTY; PLACES];
    places[..n].copy_from_slice(&list[..n]);
    places
}
