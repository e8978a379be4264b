// How deep lists and dictionaries stand in each other.
ghost use Rattle.std.specs.Prelude.{◌≡◌};
ghost use Rattle.bencode.specs.Depth.{nested};

// In how many lists and dictionaries a value stands, at most LARGEST.
// Stays: a ghost field for that would put a proof into the definition `nested`, which makes a Depth.
#[derive(Clone, Copy)]
pub struct Depth(u8);

impl Depth {
    // How many lists and dictionaries may stand in each other, the outermost counted.
    pub const LARGEST: u8 = 16;

    // The depth of a payload's value: in no list and no dictionary.
    pub fn outermost() -> Depth
        ensures { result.0 ≡ 0 }
    {
        Depth(0)
    }

    // The depth in the list that is a payload.
    pub fn in_list() -> Depth
        ensures { result.0 ≡ 1 }
    {
        Depth(1)
    }

    // The depth in a list that is a value of that.
    pub fn in_sublist() -> Depth
        ensures { result.0 ≡ 2 }
    {
        Depth(2)
    }

    // The depth in a dictionary that is a value of that.
    pub fn in_record() -> Depth
        ensures { result.0 ≡ 3 }
    {
        Depth(3)
    }

    // The depth inside one list or dictionary more, or none where that is too deep.
    pub fn nested(self) -> Option<Depth>
        ensures { result ≡ nested self }
    {
        (self.0 < Depth::LARGEST).then(|| Depth(self.0 + 1))
    }
}
