// The desk's record.
ghost use Rattle.std.specs.Prelude.{◌≡◌, drop};
ghost use Rattle.desk.specs.Record.{watched, closed};

use super::lists::padded;
use super::watch::{PLACES, Watch};

// What is desired of the daemon: both limits and the watched transfers, of which `count` places are used. `override_id` is the
// transfer that an override gives the link to, and 0 where none stands.
// Stays: an ID and a count, and no Option and slice, as document 01 has any record handed in by value, with 0 for none.
#[derive(Clone, Copy)]
pub struct Desk {
    pub opened: bool,
    pub count: usize,
    pub down: i32,
    pub up: i32,
    pub override_id: u32,
    pub watch: [Watch; PLACES],
}

impl Desk {
    // The records in use: all places where the count is over them.
    pub(crate) fn watched(&self) -> &[Watch]
        ensures { result.now ≡ watched self.now }
    {
        &self.watch[..self.count.min(PLACES)]
    }

    // The places after them.
    pub(crate) fn unused(&self) -> &[Watch]
        ensures { result.now ≡ drop self.now.count self.now.watch }
    {
        &self.watch[self.count.min(PLACES)..]
    }
}

// A closed desk, which document 01 calls shut: zero throughout.
pub fn closed_desk() -> Desk
    ensures { result ≡ closed }
{
    Desk {
        opened: false,
        count: 0,
        down: 0,
        up: 0,
        override_id: 0,
        watch: padded(&[]),
    }
}
