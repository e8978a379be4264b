// What a step of a run prints.
ghost use Rattle.std.specs.Prelude.{◌≡◌};
ghost use Rattle.strip.specs.Line.{output_bytes};

use desk::LONGEST_FRAMES;

// The bytes at the front, and how many they are.
// Stays: an array and a length, as no heap is used; `text` is the slice.
#[derive(Clone, Copy)]
pub struct Output {
    pub bytes: [u8; Output::ROOM],
    pub length: usize,
}

impl Output {
    // Enough for any line of words and numbers, which may be 20 digits long.
    pub const LINE: usize = 48;
    // A line, and the longest call's bytes with a newline.
    pub const ROOM: usize = Output::LINE + LONGEST_FRAMES + 1;

    // The bytes, or all there are where there are fewer.
    #[tactic(auto, unfolding(crate::specs::Line::output_bytes))]
    pub fn text(&self) -> &[u8]
        ensures { result.now ≡ output_bytes self.now }
    {
        let length = self.length.min(Output::ROOM);
        &self.bytes[..length]
    }
}
