// The classes of bytes: one table, by which the walk tells lists, dictionaries and their ends from other values.
ghost use Rattle.std.specs.Prelude.{◌≡◌, true};
ghost use Rattle.octets.specs.Bytes.{byte_at};
ghost use Rattle.bencode.specs.Classes.{class_of, is_table};

use octets::byte_at;

// The class of each byte, sixteen to a line: a digit is `0`, each of `-:deil` is itself, and any other byte is `.`.
// Stays: a class is a byte, as document 01 binds one table of 256 byte classes.
const CLASSES: [u8; 256] = *b"\
    ................\
    ................\
    .............-..\
    0000000000:.....\
    ................\
    ................\
    ....de...i..l...\
    ................\
    ................\
    ................\
    ................\
    ................\
    ................\
    ................\
    ................\
    ................";

// The table, with the fact that it passes its test. Each public function of the walk makes it once and lends it on, since each use
// of the constant copies it whole.
#[derive(Clone, Copy)]
pub struct Classes {
    table: [u8; 256],
    ghost right: { is_table table ≡ true },
}

impl Classes {
    // The constant's table.
    pub fn new() -> Classes {
        let table = CLASSES;
        Classes { table }
    }

    // The class of a byte.
    pub fn of(&self, b: u8) -> u8
        ensures { result ≡ class_of b }
    {
        self.table[usize::from(b)]
    }

    // The class of the byte at an offset.
    pub fn at(&self, s: &[u8], at: usize) -> u8
        ensures { result ≡ class_of (byte_at s.now at) }
    {
        self.of(byte_at(s, at))
    }
}
