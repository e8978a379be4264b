// Integers with no sign and of few digits, as most are. Each function here is called at one place only, so that it is inlined there.
ghost use Rattle.std.specs.Prelude.{◌≡◌, true, ◌+◌, ◌≤◌, ◌<◌, length, IfSome, Ok};
ghost use Rattle.octets.specs.Bytes.{byte_at};
ghost use Rattle.bencode.specs.Integers.{integer_at, number_end};

use super::classes::Classes;
use super::digits::digits_end;
use octets::byte_at;

// At most this many digits are read at once: as many fit 63 bits, whatever they are.
const FEW: usize = 18;

// An `i`, FEW digits and the byte after them. Nearer to the end of the bytes `integer` is as good.
const ROOM: usize = 20;

// Are digits that end at an offset a numeral: some, fewer than FEW, and no 0 before others. Where not, this says nothing.
fn is_short(s: &[u8], from: usize, end: usize) -> bool
    requires { (from ≤ end) × (end ≤ from + 18) × (from + 18 ≤ length s.now) }
    ensures { result ≡ true → (from < end) × (end < from + 18) × (byte_at s.now from ≡ 48 → end ≡ from + 1) }
{
    from < end && end < from + FEW && (s[from] != b'0' || end == from + 1)
}

// The offset after the integer at an offset, if it has no sign; none says nothing.
pub fn plain_end(s: &[u8], at: usize, classes: &Classes) -> Option<usize>
    ensures { IfSome result (λ end. number_end (integer_at s.now at) ≡ Ok end) }
{
    if byte_at(s, at) != b'i' || s.len() - at < ROOM {
        return None;
    }
    let from = at + 1;
    let end = digits_end::<FEW>(s, from, classes);
    if s[end] != b'e' || !is_short(s, from, end) {
        return None;
    }
    Some(end + 1)
}
