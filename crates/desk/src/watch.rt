// The watch list's records.

// A watched transfer: its torrent ID and whether it is desired running.
// Stays: a running mark, as document 01 has it in the record that is handed in.
#[derive(Clone, Copy, PartialEq, Eq)]
pub struct Watch {
    pub id: u32,
    pub running: bool,
}

impl Watch {
    // What an unused place holds.
    pub const EMPTY: Watch = Watch {
        id: 0,
        running: false,
    };
}

// How many transfers may be watched.
pub const PLACES: usize = 32;
