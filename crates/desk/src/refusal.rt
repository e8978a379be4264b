// When a call is refused, whatever room it is lent.
ghost use Rattle.std.specs.Prelude.{◌≡◌, cond};
ghost use Rattle.desk.specs.Codes.{check_code};
ghost use Rattle.desk.specs.Limit.{is_limit};
ghost use Rattle.desk.specs.Record.{sound};
ghost use Rattle.desk.specs.Refusal.{stands, raises_again, clears_none, limit_fits, id_fits, call_fault};

use super::call::Call;
use super::done::Refusal;
use super::limit::is_limit;
use super::record::Desk;

impl Desk {
    // Does an override stand.
    pub(crate) fn override_stands(&self) -> bool
        ensures { result ≡ stands self.now }
    {
        self.override_id != 0
    }

    // Tests the record.
    fn check_record(&self) -> Result<(), Refusal>
        ensures { check_code result ≡ cond (sound self.now) 0 38 }
    {
        if self.is_sound() {
            Ok(())
        } else {
            Err(Refusal::Record)
        }
    }

    // Tests a raise, which needs that no override stands, or a clear, which needs one.
    fn check_override(&self, call: Call) -> Result<(), Refusal>
        ensures { check_code result ≡ cond (raises_again call self.now) 32 (cond (clears_none call self.now) 33 0) }
    {
        match call {
            Call::Raise(_) if self.override_stands() => Err(Refusal::Stands),
            Call::Clear if !self.override_stands() => Err(Refusal::NoneStands),
            _ => Ok(()),
        }
    }

    // Tests the ID that a call names.
    fn check_id(&self, call: Call) -> Result<(), Refusal>
        ensures { check_code result ≡ cond (id_fits call self.now) 0 31 }
    {
        match call {
            Call::Start(id) | Call::Stop(id) | Call::Raise(id) if !self.watches(id) => {
                Err(Refusal::Unwatched)
            }
            _ => Ok(()),
        }
    }

    // Tests a call in document 01's order.
    pub(crate) fn check(&self, call: Call) -> Result<(), Refusal>
        ensures { check_code result ≡ call_fault call self.now }
    {
        self.check_record()?;
        self.check_override(call)?;
        check_limit(call)?;
        self.check_id(call)
    }
}

// Tests the limit that a call names.
fn check_limit(call: Call) -> Result<(), Refusal>
    ensures { check_code result ≡ cond (limit_fits call) 0 30 }
{
    // Stays: two arms, as the kit makes no proof of an arm with `|` that binds a signed number.
    match call {
        Call::Down(limit) => limit_in_range(limit),
        Call::Up(limit) => limit_in_range(limit),
        _ => Ok(()),
    }
}

// Tests a limit.
fn limit_in_range(limit: i32) -> Result<(), Refusal>
    ensures { check_code result ≡ cond (is_limit limit) 0 30 }
{
    if is_limit(limit) {
        Ok(())
    } else {
        Err(Refusal::Limit)
    }
}
