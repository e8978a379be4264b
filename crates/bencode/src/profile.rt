// Which keys a dictionary may have; in both profiles they are text. Every walk is handed its profile, and only the key rule looks
// at it.
#[derive(Clone, Copy)]
pub enum Profile {
    // Keys in any order, none twice.
    Loose,
    // Keys that rise strictly as raw bytes.
    Strict,
}
