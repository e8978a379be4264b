// The watch records of a strip, as they come.
ghost use Rattle.std.specs.Prelude.{◌≡◌};
ghost use Rattle.strip.specs.Gather.{nothing_gathered, gathered};

use desk::{PLACES, Watch, closed_desk};

// The first records, as many as a desk has places, and how many came; past one too many they are not counted.
// Stays: an array and a count, as no heap is used and desk's open_records takes both.
#[derive(Clone, Copy)]
pub struct Gathered {
    pub watch: [Watch; PLACES],
    pub count: usize,
}

#[tactic(auto, unfolding(crate::specs::Gather::nothing_gathered, desk::specs::Record::closed))]
pub fn nothing_gathered() -> Gathered
    ensures { result ≡ nothing_gathered }
{
    let none = closed_desk();
    let watch = none.watch;
    Gathered { watch, count: 0 }
}

impl Gathered {
    // One record more.
    #[tactic(auto, unfolding(crate::specs::Gather::gathered))]
    pub fn gather(self, watch: Watch) -> Gathered
        ensures { result ≡ gathered self watch }
    {
        let count = self.count;
        let over = PLACES < count;
        if over {
            return self;
        }
        let mut next = self;
        if count < PLACES {
            next.watch[count] = watch;
        }
        next.count = count + 1;
        next
    }
}
