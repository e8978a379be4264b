// The payload of a frame.
ghost use Rattle.std.specs.Prelude.{◌≤◌, length};
ghost use Rattle.ipc.specs.Header.{largest_payload};

use bencode::Profile;

// A payload of a length that is taken, and the profile that it is read in.
#[derive(Clone, Copy)]
pub struct Payload<'a> {
    pub bytes: &'a [u8],
    pub profile: Profile,
    ghost small: { length bytes.now ≤ largest_payload },
}
