//! The event records: each says one event of the machine. No heap is needed to read them.
#![tactic(auto)]

pub(crate) mod body;
pub(crate) mod kind;
pub(crate) mod record;

pub use record::{Cut, next_event};
