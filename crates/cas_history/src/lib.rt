//! The runs of a region: events, tables, histories and the conduct of sessions, and what holds of each lawful run.
#![tactic(auto)]

mod below;
mod entry;
mod error;
mod event;
mod lawful;
mod laws;
mod reading;
mod rows;
mod theorem;

pub use below::{object_under, value_under};
pub use entry::{Asked, Entry, call_of, copy_call};
pub use error::ReplayError;
pub use event::{Act, Answer, Event};
pub use laws::{
    blocks_fit, costs_leave_room, ends_are_starts, events_change_their_kind, runs_grow,
    sessions_stay_apart,
};
pub use rows::{ClaimedBlock, Rows, put_front};
pub use theorem::{
    calls_go_in_order, history_is_legal, loads_are_exact, primary_is_closed, promises_are_whole,
};
