// The versions of a handshake, and the version that two ranges agree on.
ghost use Rattle.std.specs.Prelude.{◌≡◌, pos};
ghost use Rattle.ipc.specs.Versions.{range_of, largest_common, agreed, agreed_version};

use super::ids::number_in;

// A range of versions, from the smallest to the largest.
#[derive(Clone, Copy)]
pub struct Versions {
    min: u32,
    max: u32,
}

impl Versions {
    // The largest version.
    pub const LARGEST: u32 = 2147483647;

    // The range from one number to another, or none where it is empty or a number is out of range.
    #[tactic(auto, using(crate::proofs::frames::VersionLaws::ranges))]
    pub fn new(min: i64, max: i64) -> Option<Versions>
        ensures { result ≡ range_of min max }
    {
        let min = number_in(Versions::LARGEST, min)?;
        let max = number_in(Versions::LARGEST, max)?;
        if max < min {
            return None;
        }
        Some(Versions { min, max })
    }

    pub fn min(self) -> u32
        ensures { result ≡ self.min }
    {
        self.min
    }

    pub fn max(self) -> u32
        ensures { result ≡ self.max }
    {
        self.max
    }
}

// The largest version in two ranges, or none.
fn largest_common(a: Versions, b: Versions) -> Option<u32>
    ensures { result ≡ largest_common a b }
{
    let least = a.min.max(b.min);
    let most = a.max.min(b.max);
    if most < least {
        return None;
    }
    Some(most)
}

// The largest version in two ranges, or none, also where either is no range.
fn agreed(low: u32, high: u32, low2: u32, high2: u32) -> Option<u32>
    ensures { result ≡ agreed (range_of (pos low) (pos high)) (range_of (pos low2) (pos high2)) }
{
    let a = Versions::new(i64::from(low), i64::from(high))?;
    let b = Versions::new(i64::from(low2), i64::from(high2))?;
    largest_common(a, b)
}

// The version that two ranges agree on: the largest in both, or 0 if there is none or if either is no range.
// Stays: 0 for none, which document 01 and the C interface answer.
pub fn agreed_version(low: u32, high: u32, low2: u32, high2: u32) -> u32
    ensures { result ≡ agreed_version low high low2 high2 }
{
    agreed(low, high, low2, high2).unwrap_or(0)
}
