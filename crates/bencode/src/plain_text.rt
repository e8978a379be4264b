// ASCII text, as most keys are, told eight bytes at a time: a character of one byte needs no further test.
ghost use Rattle.std.specs.Prelude.{◌≡◌, true, ◌+◌, ◌≤◌, length};
ghost use Rattle.octets.specs.Bytes.{slice};
ghost use Rattle.bencode.specs.Utf8.{is_text, PlainAt};

// The highest bit of each of eight bytes.
const HIGH: u64 = 0x8080808080808080;

// Added to eight bytes up to 7F, it sets the highest bit of each but the zeros.
const LOW: u64 = 0x7F7F7F7F7F7F7F7F;

// Says yes only where eight bytes are 1 to 7F.
fn are_plain(bytes: &[u8; 8]) -> bool
    ensures { result ≡ true → PlainAt bytes.now 0 8 }
{
    let w = u64::from_le_bytes(*bytes);
    w & HIGH == 0 && (w + LOW) & HIGH == HIGH
}

// Says yes only where eight bytes are left from an offset on, and those are 1 to 7F.
pub fn plain_at(s: &[u8], at: usize) -> bool
    requires { at ≤ length s.now }
    ensures { result ≡ true → (at + 8 ≤ length s.now) × PlainAt s.now at 8 }
{
    match s[at..].first_chunk::<8>() {
        Some(bytes) => are_plain(bytes),
        None => false,
    }
}

// Says yes only where the key from start up to end is ASCII text: it looks at whole words from the start on, also past the end,
// and where one has another byte, or the bytes end, it says no.
// Stays: a loop over offsets, since it reads words past the key, where `chunks` of the key would end.
pub fn is_plain(s: &[u8], start: usize, end: usize) -> bool
    requires { (start ≤ end) × (end ≤ length s.now) }
    ensures { result ≡ true → is_text (slice s.now start end) ≡ true }
{
    let mut i = start;
    while plain_at(s, i) {
        i += 8;
        if end <= i {
            return true;
        }
    }
    false
}
