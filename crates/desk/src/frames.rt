// The frames of a call, put one after the other into a buffer that is long enough for any call's.
ghost use Rattle.std.specs.Prelude.{◌≡◌, true, ◌+◌, ◌≤◌, length};
ghost use Rattle.octets.specs.Put.{Wrote, Put};
ghost use Rattle.bencode.specs.Value.{encode_all};
ghost use Rattle.ipc.specs.declared.writer.Given.{Given};
ghost use Rattle.desk.specs.Limit.{is_limit};
ghost use Rattle.desk.specs.Watch.{pick_ids};
ghost use Rattle.desk.specs.Record.{watched, sound};
ghost use Rattle.desk.specs.Command.{four_commands, values, id_list, message_frame, limit_frame, listed_frame, no_tag, frames_of, Writable, LimitKey, ListKey};

use super::done::LONGEST_FRAMES;
use super::lists::Pick;
use super::record::Desk;
use super::watch::Watch;
use bencode::put_integer;
use ipc::{Given, write};
use octets::put_bytes;

// The numbers of the keys that the desk writes.
// Stays: they are rows of document 01's table of keys, which the frame writer takes by number.
pub const DOWNLIMIT: u8 = 5;

pub const START: u8 = 16;

pub const STOP: u8 = 18;

pub const UPLIMIT: u8 = 20;

// Frames carry no tag.
const NO_TAG: u32 = 0;

// The bytes of a list that holds nothing.
const EMPTY_LIST: usize = 2;

// Puts the frame of a message: the frame writer is lent the buffer from an offset on.
fn put_message(out: &mut [u8], at: usize, key: u8, given: Given, s: &[u8]) -> usize
    requires { Writable no_tag key given s.now }
    ensures { Put out.old at (message_frame no_tag key given s.now) out.new result }
{
    if out.len() < at {
        return at;
    }
    match write(key, given, s, NO_TAG, &mut out[at..]) {
        Ok(n) => at + n,
        Err(_) => at,
    }
}

// Puts the frame of a limit.
pub fn put_limit(out: &mut [u8], at: usize, key: u8, limit: i32) -> usize
    requires { LimitKey key × (is_limit limit ≡ true) }
    ensures { Put out.old at (limit_frame no_tag key limit) out.new result }
{
    put_message(out, at, key, Given::Integer(i64::from(limit)), b"")
}

// Puts the IDs that are picked, in list order.
fn put_items(out: &mut [u8], at: usize, list: &[Watch], pick: Pick) -> usize
    requires { at + length (encode_all (values (pick_ids pick list.now))) ≤ length out.old }
    ensures { Wrote out.old at (encode_all (values (pick_ids pick list.now))) out.new result }
{
    let mut o = at;
    for w in list {
        if pick.picks(*w) {
            o = put_integer(out, o, i64::from(w.id));
        }
    }
    o
}

// Puts the list of the IDs that are picked.
fn put_ids(out: &mut [u8], list: &[Watch], pick: Pick) -> usize
    requires { length (id_list (pick_ids pick list.now)) ≤ length out.old }
    ensures { Wrote out.old 0 (id_list (pick_ids pick list.now)) out.new result }
{
    let o = put_bytes(out, 0, b"l");
    let o = put_items(out, o, list, pick);
    put_bytes(out, o, b"e")
}

impl Desk {
    // Puts the frame of the watched IDs that are picked; it is not written where there is none.
    pub(crate) fn put_listed(&self, out: &mut [u8], at: usize, key: u8, pick: Pick) -> usize
        requires { ListKey key × (sound self.now ≡ true) }
        ensures { Put out.old at (listed_frame no_tag key (pick_ids pick (watched self.now))) out.new result }
    {
        let mut list = [0u8; LONGEST_FRAMES];
        let n = put_ids(&mut list, self.watched(), pick);
        if n == EMPTY_LIST {
            return at;
        }
        put_message(out, at, key, Given::Bytes, &list[..n])
    }

    // Puts the frames of a raise or a clear: both limits, the IDs to stop and those to start.
    pub(crate) fn put_all(
        &self,
        out: &mut [u8],
        down: i32,
        up: i32,
        stops: Pick,
        starts: Pick,
    ) -> usize
        requires { (sound self.now ≡ true) × (is_limit down ≡ true) × (is_limit up ≡ true) × (length (frames_of (four_commands down up (pick_ids stops (watched self.now)) (pick_ids starts (watched self.now)))) ≤ length out.old) }
        ensures { Wrote out.old 0 (frames_of (four_commands down up (pick_ids stops (watched self.now)) (pick_ids starts (watched self.now)))) out.new result }
    {
        let o = put_limit(out, 0, DOWNLIMIT, down);
        let o = put_limit(out, o, UPLIMIT, up);
        let o = self.put_listed(out, o, STOP, stops);
        self.put_listed(out, o, START, starts)
    }
}
