// What an accepted call does.
ghost use Rattle.std.specs.Prelude.{◌≡◌, ◌≤◌, length};
ghost use Rattle.octets.specs.Put.{Wrote};
ghost use Rattle.desk.specs.Command.{frames_of, longest_frames};
ghost use Rattle.desk.specs.Refusal.{call_fault};
ghost use Rattle.desk.specs.Plan.{deferred, desk_after, commands_of};

use super::call::Call;
use super::frames::{DOWNLIMIT, START, STOP, UPLIMIT, put_limit};
use super::limit::Limit;
use super::lists::Pick;
use super::record::Desk;

impl Desk {
    // Is a call a routine request while an override stands.
    pub(crate) fn defers(&self, call: Call) -> bool
        ensures { result ≡ deferred call self.now }
    {
        match call {
            Call::Raise(_) | Call::Clear => false,
            _ => self.override_stands(),
        }
    }

    // The record after an accepted call.
    pub(crate) fn after(self, call: Call) -> Desk
        ensures { result ≡ desk_after call self }
    {
        match call {
            Call::Down(limit) => self.with_down(limit),
            Call::Up(limit) => self.with_up(limit),
            Call::Start(id) => self.with_running(id, true),
            Call::Stop(id) => self.with_running(id, false),
            Call::Raise(id) => self.with_override(id),
            Call::Clear => self.with_override(0),
        }
    }

    // Puts the frames of an accepted call.
    pub(crate) fn put_commands(&self, out: &mut [u8], call: Call) -> usize
        requires { (call_fault call self.now ≡ 0) × (longest_frames ≤ length out.old) }
        ensures { Wrote out.old 0 (frames_of (commands_of call self.now)) out.new result }
    {
        match call {
            Call::Down(limit) => put_limit(out, 0, DOWNLIMIT, limit),
            Call::Up(limit) => put_limit(out, 0, UPLIMIT, limit),
            Call::Start(id) => self.put_listed(out, 0, START, Pick::Only(id)),
            Call::Stop(id) => self.put_listed(out, 0, STOP, Pick::Only(id)),
            Call::Raise(id) => self.put_all(
                out,
                Limit::UNLIMITED,
                Limit::UNLIMITED,
                Pick::But(id),
                Pick::Only(id),
            ),
            Call::Clear => self.put_all(out, self.down, self.up, Pick::Stopped, Pick::Running),
        }
    }
}
