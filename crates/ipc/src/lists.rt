// Lists of a message, walked and held to their format in one pass.
ghost use Rattle.std.specs.Prelude.{◌≡◌};
ghost use Rattle.bencode.specs.declared.profile.Profile.{Profile};
ghost use Rattle.bencode.specs.Integers.{integer_at};
ghost use Rattle.ipc.specs.declared.format.Items.{Items};
ghost use Rattle.ipc.specs.Lists.{closed_at, Listing, ListingOrFault, is_id};

use super::ids::TorrentId;
use bencode::{Fault, Profile, integer, positives, record, texts};
use octets::byte_at;

// A list whose items are all in their format, by the offset after it; or a list that comes to what it comes to from an offset on,
// given up because no item in its format stands there or just before.
// Stays: both cases are an offset from which the walk goes on, and a Result<usize, usize> would not say which of them it is.
#[derive(Clone, Copy)]
pub enum ListCheck {
    Fits(usize),
    Off(usize),
}

// The list whose items before an offset are in their format: it ends there, or is given up there.
fn closed_at(p: &[u8], at: usize) -> ListCheck
    ensures { result ≡ closed_at p.now at }
{
    if byte_at(p, at) == b'e' {
        return ListCheck::Fits(at + 1);
    }
    ListCheck::Off(at)
}

// The list of strings whose items start at an offset.
pub fn text_list(p: &[u8], from: usize) -> ListCheck
    ensures { (profile : Profile) → Listing profile Items.Texts p.now from result }
{
    closed_at(p, texts(p, from))
}

// The list of torrent IDs whose items start at an offset.
pub fn id_list(p: &[u8], from: usize) -> ListCheck
    ensures { (profile : Profile) → Listing profile Items.Ids p.now from result }
{
    closed_at(p, positives(p, from, u64::from(TorrentId::LARGEST)))
}

// Is a torrent ID at an offset.
fn is_id(p: &[u8], at: usize) -> bool
    ensures { result ≡ is_id (integer_at p.now at) }
{
    match integer(p, at) {
        Ok(number) => TorrentId::new(number.value).is_some(),
        Err(_) => false,
    }
}

// The list of torrents whose items start at an offset: dictionaries whose `id` is a torrent ID; or its first fault.
// Stays: a loop, since each record tells where the next starts, and a fault ends it.
pub fn torrent_list(p: &[u8], from: usize, profile: Profile) -> Result<ListCheck, Fault>
    ensures { ListingOrFault profile Items.Torrents p.now from result }
{
    let mut at = from;
    loop {
        let b = byte_at(p, at);
        if b == b'e' {
            return Ok(ListCheck::Fits(at + 1));
        }
        if b != b'd' {
            return Ok(ListCheck::Off(at));
        }
        let noted = record(p, at + 1, b"id", profile)?;
        let Some(id) = noted.value else {
            return Ok(ListCheck::Off(noted.end));
        };
        if !is_id(p, id) {
            return Ok(ListCheck::Off(noted.end));
        }
        at = noted.end;
    }
}
