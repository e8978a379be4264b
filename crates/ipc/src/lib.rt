// Frames of Transmission's IPC protocol, version 2: eight hex digits of length, then a bencoded message or handshake.
// Every function takes any bytes and numbers: what is bad is refused by the documents' numbers, and a refusal writes no byte.
#![tactic(auto)]

mod check;
mod format;
mod handshake;
mod handshake_writer;
mod header;
mod hex;
mod ids;
mod keys;
mod lengths;
mod lists;
mod message;
mod numbers;
mod payload;
mod reader;
mod reading;
mod versions;
mod writer;

pub use handshake_writer::write_handshake;
pub use header::{PayloadLength, read_header};
pub use ids::{Tag, TorrentId};
pub use keys::is_written;
pub use numbers::{IntoNumbers, Numbers, ValueNumbers, numbers_of};
pub use reader::{read, read_strict};
pub use reading::{CodedRefusal, Frame, Message, Refusal, Value};
pub use versions::{Versions, agreed_version};
pub use writer::{Given, WriteRefusal, write};
