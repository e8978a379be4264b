// The header's digits as they are written: upper case, by powers of two.
ghost use Rattle.std.specs.Prelude.{◌≡◌, ◌<◌};
ghost use Rattle.ipc.specs.Hex.{hex_digit, hex_header};

use super::header::HEADER_LENGTH;

// The upper case digit of a number below 16.
#[tactic(auto, unfolding(crate::specs::Hex::hex_digit))]
fn hex_digit(d: u32) -> u8
    requires { d < 16 }
    ensures { result ≡ hex_digit d }
{
    if d < 10 {
        b'0' + d as u8
    } else {
        b'A' - 10 + d as u8
    }
}

// The 8 digits of a number.
pub fn hex_header(n: u32) -> [u8; 8]
    ensures { result ≡ hex_header n }
{
    let mut digits = [0; HEADER_LENGTH];
    for k in 0..HEADER_LENGTH {
        digits[k] = hex_digit(n >> (28 - 4 * k) & 15);
    }
    digits
}
