// A value handed in by number.
ghost use Rattle.std.specs.Prelude.{◌≡◌};
ghost use Rattle.c_api.specs.Offered.{offered};

use ipc::Given;

// The value of a kind, or none for a number that is no kind of value.
// Stays: the C interface has a number for the kind.
#[tactic(auto, unfolding(crate::specs::Offered::offered))]
pub fn offered_of(kind: u32, integer: i64) -> Option<Given>
    ensures { result ≡ offered kind integer }
{
    match kind {
        0 => Some(Given::Nothing),
        1 => Some(Given::Integer(integer)),
        2 => Some(Given::Bytes),
        _ => None,
    }
}
