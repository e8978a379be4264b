// The listed keys: a table of their bytes, formats and whether they are written, and the number of a key.
ghost use Rattle.std.specs.Prelude.{◌≡◌, ◌≤◌, ◌<◌, length};
ghost use Rattle.octets.specs.Put.{Put};
ghost use Rattle.bencode.specs.Value.{encode_string};
ghost use Rattle.ipc.specs.Keys.{key_count, row_of, row_at, listed_at, key_text, key_number, class_of, is_written};

use bencode::put_string;

// The formats of values. A key that is not listed takes any value.
#[derive(Clone, Copy)]
pub enum Class {
    Unlisted,
    Boolean,
    Ignored,
    Text,
    Integer,
    TextList,
    TorrentList,
    Port,
    IdList,
}

// A listed key: its bytes and how many they are, the format of its value, and whether it is written.
// Stays: the table of bytes, length, format and written flag is document 01's.
#[derive(Clone, Copy)]
pub struct KeyRow {
    pub text: [u8; 14],
    pub length: usize,
    pub class: Class,
    pub written: bool,
}

// How many keys are listed.
pub const LISTED: usize = 20;

// The key with number n stands at n - 1.
const KEYS: [KeyRow; LISTED] = [
    KeyRow {
        text: *b"automap\0\0\0\0\0\0\0",
        length: 7,
        class: Class::Boolean,
        written: true,
    },
    KeyRow {
        text: *b"autostart\0\0\0\0\0",
        length: 9,
        class: Class::Boolean,
        written: true,
    },
    KeyRow {
        text: *b"bad-format\0\0\0\0",
        length: 10,
        class: Class::Ignored,
        written: true,
    },
    KeyRow {
        text: *b"directory\0\0\0\0\0",
        length: 9,
        class: Class::Text,
        written: true,
    },
    KeyRow {
        text: *b"downlimit\0\0\0\0\0",
        length: 9,
        class: Class::Integer,
        written: true,
    },
    KeyRow {
        text: *b"failed\0\0\0\0\0\0\0\0",
        length: 6,
        class: Class::Text,
        written: true,
    },
    KeyRow {
        text: *b"get-downlimit\0",
        length: 13,
        class: Class::Ignored,
        written: true,
    },
    KeyRow {
        text: *b"get-status-all",
        length: 14,
        class: Class::TextList,
        written: false,
    },
    KeyRow {
        text: *b"get-uplimit\0\0\0",
        length: 11,
        class: Class::Ignored,
        written: true,
    },
    KeyRow {
        text: *b"info\0\0\0\0\0\0\0\0\0\0",
        length: 4,
        class: Class::TorrentList,
        written: false,
    },
    KeyRow {
        text: *b"noop\0\0\0\0\0\0\0\0\0\0",
        length: 4,
        class: Class::Ignored,
        written: true,
    },
    KeyRow {
        text: *b"not-supported\0",
        length: 13,
        class: Class::Ignored,
        written: true,
    },
    KeyRow {
        text: *b"pex\0\0\0\0\0\0\0\0\0\0\0",
        length: 3,
        class: Class::Boolean,
        written: true,
    },
    KeyRow {
        text: *b"port\0\0\0\0\0\0\0\0\0\0",
        length: 4,
        class: Class::Port,
        written: true,
    },
    KeyRow {
        text: *b"remove\0\0\0\0\0\0\0\0",
        length: 6,
        class: Class::IdList,
        written: true,
    },
    KeyRow {
        text: *b"start\0\0\0\0\0\0\0\0\0",
        length: 5,
        class: Class::IdList,
        written: true,
    },
    KeyRow {
        text: *b"status\0\0\0\0\0\0\0\0",
        length: 6,
        class: Class::TorrentList,
        written: false,
    },
    KeyRow {
        text: *b"stop\0\0\0\0\0\0\0\0\0\0",
        length: 4,
        class: Class::IdList,
        written: true,
    },
    KeyRow {
        text: *b"succeeded\0\0\0\0\0",
        length: 9,
        class: Class::Ignored,
        written: true,
    },
    KeyRow {
        text: *b"uplimit\0\0\0\0\0\0\0",
        length: 7,
        class: Class::Integer,
        written: true,
    },
];

// What stands for a key that is not listed.
const UNLISTED: KeyRow = KeyRow {
    text: [0; 14],
    length: 0,
    class: Class::Unlisted,
    written: false,
};

// A row of the table.
fn row_at(k: usize) -> KeyRow
    requires { k < key_count }
    ensures { result ≡ row_at k }
{
    KEYS[k]
}

// A key by its number and the format of its values. One that is not listed has the number 0.
// Stays: the numbers are document 01's, with 0 for a key that is not listed.
#[derive(Clone, Copy)]
pub struct Key {
    pub number: u8,
    pub class: Class,
}

// The key with a text.
pub fn key_of(text: &[u8]) -> Key
    ensures { (result.number ≡ key_number text.now) × (result.class ≡ class_of (key_number text.now)) }
{
    for (k, row) in KEYS.iter().enumerate() {
        if row.length == text.len() && octets::same(&row.text[..row.length], text) {
            return Key {
                number: k as u8 + 1,
                class: row.class,
            };
        }
    }
    Key {
        number: 0,
        class: Class::Unlisted,
    }
}

// The row of a key, and that of no key for 0 and past the last number.
fn row_of(number: u8) -> KeyRow
    ensures { result ≡ row_of (listed_at number) }
{
    match usize::from(number).checked_sub(1) {
        Some(k) if k < LISTED => row_at(k),
        _ => UNLISTED,
    }
}

// The format of the values of a key.
#[tactic(auto, unfolding(crate::specs::Keys::class_of))]
pub fn class_of(number: u8) -> Class
    ensures { result ≡ class_of number }
{
    let row = row_of(number);
    row.class
}

// Is a key written here.
#[tactic(auto, unfolding(crate::specs::Keys::is_written))]
pub fn is_written(number: u8) -> bool
    ensures { result ≡ is_written number }
{
    let row = row_of(number);
    row.written
}

// How long the text of a key is, and 0 for a key that is not listed.
pub fn text_length(number: u8) -> usize
    ensures { (result ≡ length (key_text number)) × (result ≤ 14) }
{
    let row = row_of(number);
    row.length
}

// Puts the text of a key as a string at an offset of a buffer, and answers the offset after it.
pub fn put_key(out: &mut [u8], at: usize, number: u8) -> usize
    ensures { Put out.old at (encode_string (key_text number)) out.new result }
{
    let row = row_of(number);
    let n = row.length;
    let text = row.text;
    put_string(out, at, &text[..n])
}
