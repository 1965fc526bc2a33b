//! The core: it boots a checked vector on a board and takes events.
#![tactic(auto)]

mod access;
mod areas;
mod channels;
mod copies;
mod faults;
mod history;
mod inner;
mod interrupts;
mod log;
mod management;
mod messages;
mod monitor;
mod ports;
mod system;

pub use history::run;
pub use system::System;
