// The plan position: the time, the plans in force and next, and where the frame began.

/// A time or a length of time in microseconds.
pub type Time = u32;

/// A tick may lie this far ahead at most, in microseconds.
pub const FARTHEST: Time = 1_000_000;

/// The time now, the numbers of the plan in force and of the next one, and the time at which the frame began.
#[derive(Clone, Copy, Debug, PartialEq, Eq)]
pub struct Clock {
    pub time: Time,
    pub plan: u8,
    pub next: u8,
    pub start: Time,
}
