// Bytes by offset, byte strings compared, decimal digits read and written, and bytes put into a lent buffer.
// Every function here takes any bytes and any offset: what has no room is not stored.
#![tactic(auto)]

mod bytes;
mod decimal;
mod numerals;
mod put;

pub use bytes::{byte_at, less, same, wide};
pub use decimal::decimal_length;
pub use numerals::{Decimal, numeral};
pub use put::{lacks_room, put_bytes, put_decimal};
