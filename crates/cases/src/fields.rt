// The fields of a case's body.
ghost use Rattle.std.specs.Prelude.{get_or};
ghost use Rattle.std.specs.Int.{w32, w64, from_le_bytes, cast_signed};
ghost use Rattle.cases.specs.Fields.{TakesField};

use super::stream::Stop;

// What is left of a body, of which fields are taken from the front, the lowest byte of a number first.
#[derive(Clone, Copy)]
pub struct Fields<'a> {
    pub rest: &'a [u8],
}

impl<'a> Fields<'a> {
    fn take<const N: usize>(&mut self) -> Result<[u8; N], Stop>
        ensures { TakesField N (λ bytes. bytes) self.old.rest.now result self.new.rest.now }
    {
        let (bytes, rest) = self.rest.split_first_chunk::<N>().ok_or(Stop::Fault)?;
        self.rest = rest;
        Ok(*bytes)
    }

    pub fn byte(&mut self) -> Result<u8, Stop>
        ensures { TakesField 1 (λ bytes. get_or bytes 0 0) self.old.rest.now result self.new.rest.now }
    {
        let [b] = self.take::<1>()?;
        Ok(b)
    }

    pub fn number(&mut self) -> Result<u32, Stop>
        ensures { TakesField 4 (λ bytes. from_le_bytes w32 bytes) self.old.rest.now result self.new.rest.now }
    {
        Ok(u32::from_le_bytes(self.take()?))
    }

    // A number in two's complement.
    pub fn integer(&mut self) -> Result<i64, Stop>
        ensures { TakesField 8 (λ bytes. cast_signed w64 (from_le_bytes w64 bytes)) self.old.rest.now result self.new.rest.now }
    {
        Ok(i64::from_le_bytes(self.take()?))
    }
}
