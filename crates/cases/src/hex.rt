// Bytes in hex.
ghost use Rattle.std.specs.Prelude.{◌≡◌, ◌<◌, false, Some};
ghost use Rattle.std.specs.Fmt.{digit_glyph};
ghost use Rattle.cases.specs.Hex.{hex_text};

use std::fmt;

// Bytes, which print as lower case hex digits.
#[derive(Clone, Copy)]
pub struct Hex<'a>(pub &'a [u8]);

// A hex digit in lower case.
fn digit(d: u8) -> u8
    requires { d < 16 }
    ensures { result ≡ digit_glyph false d }
{
    if d < 10 { b'0' + d } else { b'a' + (d - 10) }
}

impl fmt::Display for Hex<'_> {
    ghost output = { λ h. Some (hex_text h.0.now) };

    fn fmt<W: fmt::Write>(&self, f: &mut fmt::Formatter<W>) -> fmt::Result {
        for &b in self.0 {
            // Both digits by one write, as standard output has no buffer.
            let digits = [digit(b / 16), digit(b % 16)];
            f.write_str(str::from_utf8(&digits).map_err(|_| fmt::Error)?)?;
        }
        Ok(())
    }
}
