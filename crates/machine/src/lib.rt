//! The machine: the types that its rules name, and in specs/ the rules and what is proved of them.
#![tactic(auto)]

pub mod answer;
pub mod clock;
pub mod event;
pub mod log;
pub mod message;
pub mod partition;
