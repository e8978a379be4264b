// A writer's answer as numbers.
ghost use Rattle.std.specs.Prelude.{◌≡◌};
ghost use Rattle.c_api.specs.Written.{written_numbers};

use ipc::WriteRefusal;

// Code 0 and the frame's byte count, or the code of the refusal and 0.
// Stays: the C interface has numbers.
#[repr(C)]
#[derive(Clone, Copy)]
pub struct WriteAnswer {
    pub code: u8,
    pub count: usize,
}

pub fn write_answer_of(written: Result<usize, WriteRefusal>) -> WriteAnswer
    ensures { result ≡ written_numbers written }
{
    match written {
        Ok(count) => WriteAnswer { code: 0, count },
        Err(refusal) => WriteAnswer {
            code: refusal.code(),
            count: 0,
        },
    }
}
