// The override desk of document 01: it gives one transfer the whole link, and restores what is desired when that is over.
// Every function takes any record and any buffer: what is bad is refused by document 01's numbers, and a refusal changes
// nothing.
#![tactic(auto)]

mod call;
mod calls;
mod change;
mod done;
mod frames;
mod limit;
mod lists;
mod opening;
mod plan;
mod record;
mod refusal;
mod sound;
mod watch;

pub use call::Call;
pub use calls::perform;
pub use done::{Accepted, Done, LONGEST_FRAMES, Opened, OpeningRefusal, Refusal};
pub use opening::{open, open_records};
pub use record::{Desk, closed_desk};
pub use watch::{PLACES, Watch};
