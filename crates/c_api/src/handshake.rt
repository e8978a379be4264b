// The writer of handshakes, and the version that two ranges agree on.
ghost use Rattle.std.specs.Prelude.{◌≡◌, length};
ghost use Rattle.ipc.specs.HandshakeWriter.{handshake_payload, handshake_written};
ghost use Rattle.ipc.specs.Versions.{agreed_version};
ghost use Rattle.c_api.specs.Written.{WrittenAs};

use super::written::{WriteAnswer, write_answer_of};

// Writes a handshake at the front of a buffer, or refuses and writes nothing.
#[unsafe(no_mangle)]
pub extern "C" fn bogsilver_write_handshake(min: u32, max: u32, out: &mut [u8]) -> WriteAnswer
    ensures { WrittenAs (handshake_written min max (length out.old)) (handshake_payload min max) out.old result out.new }
{
    write_answer_of(ipc::write_handshake(min, max, out))
}

// The version that two ranges agree on: the largest in both, or 0 if there is none or if either is no range.
#[unsafe(no_mangle)]
pub extern "C" fn bogsilver_agreed_version(min: u32, max: u32, min2: u32, max2: u32) -> u32
    ensures { result ≡ agreed_version min max min2 max2 }
{
    ipc::agreed_version(min, max, min2, max2)
}
