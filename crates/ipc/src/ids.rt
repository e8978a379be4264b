// Tags and torrent IDs: two types, so that neither is ever taken where the other belongs.
ghost use Rattle.std.specs.Prelude.{◌≡◌};
ghost use Rattle.ipc.specs.Ids.{number_in, tag_of, torrent_id_of};

// A number from 1 to the largest, or none where it is out of range.
#[tactic(auto, using(crate::proofs::formats::IdLaws::numbers))]
pub fn number_in(largest: u32, n: i64) -> Option<u32>
    ensures { result ≡ number_in largest n }
{
    if n < 1 {
        return None;
    }
    if i64::from(largest) < n {
        return None;
    }
    Some(n as u32)
}

// The tag of a message.
#[derive(Clone, Copy)]
pub struct Tag(u32);

impl Tag {
    // The largest tag.
    pub const LARGEST: u32 = 2147483647;

    // The tag of a number, or none where it is out of range.
    #[tactic(auto, using(crate::proofs::formats::IdLaws::tags))]
    pub fn new(n: i64) -> Option<Tag>
        ensures { result ≡ tag_of n }
    {
        Some(Tag(number_in(Tag::LARGEST, n)?))
    }

    pub fn number(self) -> u32
        ensures { result ≡ self.0 }
    {
        self.0
    }
}

// The ID of a torrent.
#[derive(Clone, Copy)]
pub struct TorrentId(u32);

impl TorrentId {
    // The largest torrent ID.
    pub const LARGEST: u32 = 2147483647;

    // The torrent ID of a number, or none where it is out of range.
    #[tactic(auto, using(crate::proofs::formats::IdLaws::ids))]
    pub fn new(n: i64) -> Option<TorrentId>
        ensures { result ≡ torrent_id_of n }
    {
        Some(TorrentId(number_in(TorrentId::LARGEST, n)?))
    }

    pub fn number(self) -> u32
        ensures { result ≡ self.0 }
    {
        self.0
    }
}
