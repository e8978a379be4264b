// The readers of frames.
ghost use Rattle.std.specs.Prelude.{◌≡◌};
ghost use Rattle.bencode.specs.declared.profile.Profile.{Profile};
ghost use Rattle.ipc.specs.Reader.{read_frame_by, read_frame};
ghost use Rattle.ipc.specs.Numbers.{numbers_of};

use ipc::{Numbers, numbers_of};

// Reads the frame at the front of the bytes. Bytes after it are left for the next read.
#[unsafe(no_mangle)]
pub extern "C" fn bogsilver_read(s: &[u8]) -> Numbers
    ensures { result ≡ numbers_of (read_frame s.now) }
{
    numbers_of(ipc::read(s))
}

// The same in the strict profile: a key that does not rise is refused by 11.
#[unsafe(no_mangle)]
pub extern "C" fn bogsilver_read_strict(s: &[u8]) -> Numbers
    ensures { result ≡ numbers_of (read_frame_by Profile.Strict s.now) }
{
    numbers_of(ipc::read_strict(s))
}
