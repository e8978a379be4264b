// The header of a frame: 8 hex digits of either case for the payload's length.
ghost use Rattle.std.specs.Prelude.{◌≡◌};
ghost use Rattle.ipc.specs.Header.{read_header, HeaderFound, header_code, header_offset, sized, SizeFound, size_code, length_code};

use super::reading::Refusal;

// How many bytes a header has.
pub const HEADER_LENGTH: usize = 8;

// The length of a payload, at most LARGEST.
#[derive(Clone, Copy)]
pub struct PayloadLength(u32);

impl PayloadLength {
    // The longest payload that this library takes.
    pub const LARGEST: u32 = 32768;
    // The longest payload that the protocol has.
    pub const PROTOCOL: u32 = 2147483640;

    #[tactic(auto, unfolding(crate::specs::Header::sized), using(crate::proofs::headers::HeaderLaws::sizes))]
    pub fn new(n: u32) -> Result<PayloadLength, Refusal>
        ensures answer { result ≡ sized n }
        ensures numbers { size_code result ≡ length_code n }
        ensures found { SizeFound result }
    {
        if PayloadLength::PROTOCOL < n {
            return Err(Refusal::OverProtocol);
        }
        if PayloadLength::LARGEST < n {
            return Err(Refusal::OverLimit);
        }
        Ok(PayloadLength(n))
    }

    pub fn number(self) -> u32
        ensures { result ≡ self.0 }
    {
        self.0
    }
}

// The number of the 8 hex digits at the front.
pub fn read_header(s: &[u8]) -> Result<u32, Refusal>
    ensures answer { result ≡ read_header s.now }
    ensures numbers { (header_code result ≡ header_code (read_header s.now)) × (header_offset result ≡ header_offset (read_header s.now)) }
    ensures found { HeaderFound result }
{
    let mut value = 0;
    for i in 0..HEADER_LENGTH {
        let byte = *s.get(i).ok_or(Refusal::Incomplete)?;
        let digit = char::from(byte).to_digit(16).ok_or(Refusal::NoDigit(i))?;
        value = 16 * value + digit;
    }
    Ok(value)
}
