// The readers, the writers, the walk and the sorter of payloads for C (include/bogsilver.h) and Rust (include/bogsilver.rs).
// Every function takes any bytes and numbers and answers in numbers: the documents' codes, and 0 for what is not named.
#![tactic(auto)]

mod handshake;
mod offered;
mod read;
mod sort;
mod walk;
mod write;
mod written;
