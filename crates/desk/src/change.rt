// How a call changes the record.
ghost use Rattle.std.specs.Prelude.{◌≡◌};
ghost use Rattle.desk.specs.Record.{with_down, with_up, with_override, with_running};

use super::lists::place_of;
use super::record::Desk;
use super::watch::{PLACES, Watch};

impl Desk {
    // The record with another down limit.
    pub(crate) fn with_down(self, down: i32) -> Desk
        ensures { result ≡ with_down down self }
    {
        Desk { down, ..self }
    }

    // The record with another up limit.
    pub(crate) fn with_up(self, up: i32) -> Desk
        ensures { result ≡ with_up up self }
    {
        Desk { up, ..self }
    }

    // The record with another override.
    pub(crate) fn with_override(self, override_id: u32) -> Desk
        ensures { result ≡ with_override override_id self }
    {
        Desk {
            override_id,
            ..self
        }
    }

    // The record with a watched transfer desired running or stopped.
    pub(crate) fn with_running(self, id: u32, running: bool) -> Desk
        ensures { result ≡ with_running id running self }
    {
        let i = place_of(self.watched(), id);
        let mut next = self;
        if i < PLACES {
            next.watch[i] = Watch { id, running };
        }
        next
    }
}
