// Numbers of a strip: four bytes, the lowest first.
ghost use Rattle.std.specs.Prelude.{◌≡◌, ◌+◌, ◌≤◌, length};
ghost use Rattle.strip.specs.Number.{number_at, limit_at};

// The number at an offset.
#[tactic(auto, unfolding(crate::specs::Number::number_at))]
pub fn number_at(s: &[u8], at: usize) -> u32
    requires { at + 4 ≤ length s.now }
    ensures { result ≡ number_at s.now at }
{
    u32::from_le_bytes([s[at], s[at + 1], s[at + 2], s[at + 3]])
}

// The limit at an offset, in two's complement.
pub fn limit_at(s: &[u8], at: usize) -> i32
    requires { at + 4 ≤ length s.now }
    ensures { result ≡ limit_at s.now at }
{
    number_at(s, at).cast_signed()
}
