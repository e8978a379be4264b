// A stream of test cases on standard input, a line or more for each on standard output: what the conformance programs share.
// A case is one byte of operation, a length (4 bytes, little-endian) and as many bytes of body.
#![tactic(auto)]

mod fields;
mod hex;
mod stream;

pub use fields::Fields;
pub use hex::Hex;
pub use stream::{Case, ROOM, Stop, Taken, answer_cases, go_on, take_case};
