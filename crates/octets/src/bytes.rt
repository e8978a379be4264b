// Bytes by offset, and byte strings compared.
ghost use Rattle.std.specs.Prelude.{◌≡◌};
ghost use Rattle.octets.specs.Bytes.{byte_at, same, less};

// The byte at an offset, and 0 past the end.
// Stays: 0 past the end, as each reader promises by it, and no Option: readers compare it with a byte.
pub fn byte_at(s: &[u8], at: usize) -> u8
    ensures { result ≡ byte_at s.now at }
{
    if at < s.len() { s[at] } else { 0 }
}

// Are two byte strings equal.
pub fn same(x: &[u8], y: &[u8]) -> bool
    ensures { result ≡ same x.now y.now }
{
    if x.len() != y.len() {
        return false;
    }
    // Stays: tried, and slower; see `less`.
    let mut i = 0;
    while i < x.len() {
        if x[i] != y[i] {
            return false;
        }
        i += 1;
    }
    true
}

// Is one byte string below another: by the first byte that differs, and a shorter one below what it begins.
pub fn less(x: &[u8], y: &[u8]) -> bool
    ensures { result ≡ less x.now y.now }
{
    // Stays: in builds that differ in `same` and `less` alone, a walk of keys that rise took 1.17 of the time with x == y and x < y
    // of slices, and 1.14 with x.iter().zip(y).
    let mut i = 0;
    loop {
        if y.len() <= i {
            return false;
        }
        if x.len() <= i {
            return true;
        }
        if x[i] != y[i] {
            return x[i] < y[i];
        }
        i += 1;
    }
}

// A byte as a number.
pub fn wide(b: u8) -> u64
    ensures { result ≡ b }
{
    u64::from(b)
}
