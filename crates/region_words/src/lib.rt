//! The words of a region that sessions share: its seats, the rule that holds of the words between any two atomic steps,
//! and the steps by which blocks are claimed and written.
#![tactic(auto)]

mod close;
mod counter;
mod ended;
mod hold;
mod laws;
mod plays;
mod region;
mod rule;
mod seats;
mod view;

pub use close::{Closed, NotClosed};
pub use ended::Ended;
pub use hold::Hold;
pub use laws::{counter_has_limit, views_stay};
pub use region::{Region, RegionSeat};
pub use rule::{Key, RegionRule};
pub use view::{Heard, KnownTable, SeatView};
