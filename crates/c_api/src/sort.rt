// The sorter.
ghost use Rattle.std.specs.Prelude.{◌≡◌, length};
ghost use Rattle.canonical.specs.Answer.{sort_answer};
ghost use Rattle.canonical.specs.SortWalk.{sorted_payload};
ghost use Rattle.c_api.specs.Sort.{sort_numbers, SortedAs};

use canonical::SortRefusal;

// Code 0 and the count of the bytes written, or the refusal's code and offset.
// Stays: the C interface has numbers.
#[repr(C)]
#[derive(Clone, Copy)]
pub struct SortAnswer {
    pub code: u8,
    pub offset: usize,
    pub count: usize,
}

impl From<Result<usize, SortRefusal>> for SortAnswer {
    ghost from_gives = { λ sorted answer. answer ≡ sort_numbers sorted };

    fn from(sorted: Result<usize, SortRefusal>) -> SortAnswer {
        match sorted {
            Ok(count) => SortAnswer {
                code: 0,
                offset: 0,
                count,
            },
            Err(refusal) => SortAnswer {
                code: refusal.code(),
                offset: refusal.offset(),
                count: 0,
            },
        }
    }
}

// Writes a payload with its dictionaries sorted at the front of a buffer, or refuses and writes nothing.
#[unsafe(no_mangle)]
pub extern "C" fn bogsilver_sort(s: &[u8], out: &mut [u8]) -> SortAnswer
    ensures { SortedAs (sort_answer (length out.old) s.now) (sorted_payload s.now) out.old result out.new }
{
    SortAnswer::from(canonical::sort(s, out))
}
