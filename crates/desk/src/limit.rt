// Limits of the daemon's rates, in kilobytes a second.
ghost use Rattle.std.specs.Prelude.{◌≡◌};
ghost use Rattle.desk.specs.Limit.{is_limit, limit_of};

// A limit that the desk takes.
#[derive(Clone, Copy)]
pub struct Limit(i32);

impl Limit {
    // No limit.
    pub const UNLIMITED: i32 = -1;
    // The largest limit.
    pub const LARGEST: i32 = 1000000;

    // The limit of a number, or none where it is out of range.
    pub fn new(n: i32) -> Option<Limit>
        ensures { result ≡ limit_of n }
    {
        if n < Limit::UNLIMITED || Limit::LARGEST < n {
            return None;
        }
        Some(Limit(n))
    }
}

// Is a number a limit.
pub fn is_limit(n: i32) -> bool
    ensures { result ≡ is_limit n }
{
    Limit::new(n).is_some()
}
