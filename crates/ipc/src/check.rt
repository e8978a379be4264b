// Whether a value that is handed to the writer is in the format of its key, and a tag in its range.
ghost use Rattle.std.specs.Prelude.{◌≡◌, leb};
ghost use Rattle.ipc.specs.Ids.{largest_tag};
ghost use Rattle.ipc.specs.Writer.{is_id_list, nothing_fits, integer_fits, bytes_fit, value_fits};

use super::format::{Items, LARGEST_PORT, is_up_to, items_end};
use super::ids::Tag;
use super::keys::Class;
use super::writer::Given;
use octets::byte_at;

// Are bytes exactly one list of torrent IDs.
#[tactic(auto, unfolding(crate::specs::Writer::is_id_list))]
fn is_id_list(s: &[u8]) -> bool
    ensures { result ≡ is_id_list s.now }
{
    byte_at(s, 0) == b'l' && items_end(s, 1, Items::Ids) == Some(s.len())
}

fn nothing_fits(class: Class) -> bool
    ensures { result ≡ nothing_fits class }
{
    matches!(class, Class::Ignored)
}

fn integer_fits(class: Class, z: i64) -> bool
    ensures { result ≡ integer_fits class z }
{
    match class {
        Class::Boolean => is_up_to(z, 1),
        Class::Integer => true,
        Class::Port => is_up_to(z, LARGEST_PORT),
        _ => false,
    }
}

fn bytes_fit(class: Class, s: &[u8]) -> bool
    ensures { result ≡ bytes_fit class s.now }
{
    match class {
        Class::Text => true,
        Class::IdList => is_id_list(s),
        _ => false,
    }
}

// Is a value in a format; the bytes stand beside it.
#[tactic(auto, unfolding(crate::specs::Writer::value_fits))]
pub fn value_fits(class: Class, given: Given, s: &[u8]) -> bool
    ensures { result ≡ value_fits class given s.now }
{
    match given {
        Given::Nothing => nothing_fits(class),
        Given::Integer(z) => integer_fits(class, z),
        Given::Bytes => bytes_fit(class, s),
    }
}

// Is a number that is handed in a tag, or 0 for none.
#[tactic(auto, using(crate::proofs::formats::CheckLaws::tag_is))]
pub fn tag_fits(tag: u32) -> bool
    ensures { result ≡ leb tag largest_tag }
{
    tag == 0 || Tag::new(i64::from(tag)).is_some()
}
