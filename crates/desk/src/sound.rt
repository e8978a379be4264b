// Which records a call takes.
ghost use Rattle.std.specs.Prelude.{◌≡◌};
ghost use Rattle.desk.specs.Watch.{has};
ghost use Rattle.desk.specs.Record.{watched, limits_sound, list_sound, sound};

use super::limit::is_limit;
use super::lists::{are_unused, check_list, has_id};
use super::record::Desk;
use super::watch::PLACES;

impl Desk {
    // Are both limits in range.
    fn limits_sound(&self) -> bool
        ensures { result ≡ limits_sound self.now }
    {
        is_limit(self.down) && is_limit(self.up)
    }

    // Is the watch list in order, its unused places empty, and an override on a watched ID.
    fn list_sound(&self) -> bool
        ensures { result ≡ list_sound self.now }
    {
        check_list(self.watched()).is_ok()
            && are_unused(self.unused())
            && (self.override_id == 0 || self.watches(self.override_id))
    }

    // Is the record one that a call takes.
    pub(crate) fn is_sound(&self) -> bool
        ensures { result ≡ sound self.now }
    {
        self.opened && self.count <= PLACES && self.limits_sound() && self.list_sound()
    }

    // Is an ID watched.
    pub(crate) fn watches(&self, id: u32) -> bool
        ensures { result ≡ has id (watched self.now) }
    {
        has_id(self.watched(), id)
    }
}
