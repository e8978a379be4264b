// The writer of messages.
ghost use Rattle.std.specs.Prelude.{◌≡◌, length};
ghost use Rattle.ipc.specs.Writer.{Leaves};
ghost use Rattle.c_api.specs.Written.{WrittenAs};
ghost use Rattle.c_api.specs.Offered.{offered, unknown_refusal, offered_answer, offered_payload};

use super::offered::offered_of;
use super::written::{WriteAnswer, write_answer_of};
use ipc::{Given, WriteRefusal, is_written};

// The refusal of a value of no kind: a key that is not written comes first.
#[tactic(auto, unfolding(crate::specs::Offered::unknown_refusal))]
fn unknown_refusal(key: u8) -> WriteRefusal
    ensures { result ≡ unknown_refusal key }
{
    if is_written(key) {
        WriteRefusal::Value
    } else {
        WriteRefusal::Key
    }
}

fn write_offered(
    key: u8,
    value: Option<Given>,
    s: &[u8],
    tag: u32,
    out: &mut [u8],
) -> Result<usize, WriteRefusal>
    ensures { Leaves (offered_answer key value s.now tag (length out.old)) (offered_payload key value s.now tag) out.old result out.new }
{
    match value {
        Some(given) => ipc::write(key, given, s, tag, out),
        None => Err(unknown_refusal(key)),
    }
}

// Writes a message at the front of a buffer, or refuses and writes nothing. The value is the integer or the bytes, by
// its kind; a tag of 0 is none.
#[unsafe(no_mangle)]
pub extern "C" fn bogsilver_write(
    key: u32,
    kind: u32,
    integer: i64,
    s: &[u8],
    tag: u32,
    out: &mut [u8],
) -> WriteAnswer
    ensures { WrittenAs (offered_answer key (offered kind integer) s.now tag (length out.old)) (offered_payload key (offered kind integer) s.now tag) out.old result out.new }
{
    if 255 < key {
        return write_answer_of(Err(WriteRefusal::Key));
    }
    let value = offered_of(kind, integer);
    write_answer_of(write_offered(key as u8, value, s, tag, out))
}
