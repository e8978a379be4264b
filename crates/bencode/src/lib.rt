// Bencoded payloads: where a value ends or which byte is at fault, looking into a payload, and writing integers and strings.
// Every function takes any bytes, also a payload that was not walked, and any offset; what has no room is not stored.
#![tactic(auto)]

mod classes;
mod depth;
mod digits;
mod entry;
mod fault;
mod field;
pub mod flat;
mod integers;
mod item;
mod key;
mod lists;
mod marks;
mod plain_integers;
mod plain_text;
mod positive_integers;
mod profile;
mod put;
mod records;
mod runs;
mod scalar;
mod short_strings;
mod skip;
mod strings;
mod text;
mod text_keys;
mod tokens;
mod walk;

pub use depth::Depth;
pub use fault::{Cause, Fault};
pub use field::{Field, field_of};
pub use integers::{Number, integer, magnitude};
pub use item::item_at;
pub use lists::{list_rest, list_value, sublist_rest};
pub use profile::Profile;
pub use put::{integer_length, put_integer, put_string, string_head};
pub use records::{Noted, record};
pub use runs::{positives, texts};
pub use skip::{skip_rest, skip_value};
pub use strings::{Text, string};
pub use walk::payload;
