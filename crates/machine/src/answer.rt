// What an event is answered, and the numbers of each answer.
ghost use Rattle.std.specs.Prelude.{◌≡◌, ℤ, pos};
ghost use Rattle.machine.specs.Answers.{refusal_code, status_number, reply, reply_of, answer_reply};

use crate::clock::Time;
use crate::log::Entry;
use crate::partition::Status;
use tables::{Action, Offset};

/// Why an event is refused.
#[derive(Clone, Copy, Debug, PartialEq, Eq)]
pub enum Refusal {
    NoAction,
    UnknownHypercall,
    InvalidParam,
    PermError,
    InvalidConfig,
    InvalidMode,
    NotAvailable,
    OpNotAllowed,
    NotOnProcessor,
    SystemHalted,
}

/// The number of a refusal, XtratuM's where it has one.
impl From<Refusal> for i32 {
    ghost from_gives = { λ refusal code. code ≡ refusal_code refusal };

    fn from(refusal: Refusal) -> i32 {
        match refusal {
            Refusal::NoAction => -1,
            Refusal::UnknownHypercall => -2,
            Refusal::InvalidParam => -3,
            Refusal::PermError => -4,
            Refusal::InvalidConfig => -5,
            Refusal::InvalidMode => -6,
            Refusal::NotAvailable => -7,
            Refusal::OpNotAllowed => -8,
            Refusal::NotOnProcessor => -9,
            Refusal::SystemHalted => -10,
        }
    }
}

/// An answer: done, or a value that was asked for.
#[derive(Clone, Copy, Debug, PartialEq, Eq)]
pub enum Answer {
    Done,
    Time(Time),
    State(Status),
    Plans {
        plan: u8,
        next: u8,
        slotless: Offset,
    },
    Port(u8),
    Received {
        length: u8,
        time: Time,
        left: u8,
    },
    Waiting(u8),
    Words {
        pending: u32,
        mask: u32,
    },
    Logged {
        left: u8,
        entry: Entry,
    },
    Byte(u8),
    Outside,
    Responded(Action),
}

/// What an event comes to: an answer or a refusal.
pub type Outcome = Result<Answer, Refusal>;

/// The numbers of an outcome: its code, and the values a and b, 0 where it does not name them.
#[derive(Clone, Copy, Debug, PartialEq, Eq)]
pub struct Reply {
    pub code: i32,
    pub a: u32,
    pub b: u32,
}

impl Reply {
    /// The code of an answer is a byte's number.
    fn new(code: u8, a: u32, b: u32) -> Reply
        ensures { result ≡ reply (pos code) a b }
    {
        Reply {
            code: i32::from(code),
            a,
            b,
        }
    }
}

impl From<Answer> for Reply {
    ghost from_gives = { λ answer r. r ≡ answer_reply answer };

    fn from(answer: Answer) -> Reply {
        match answer {
            Answer::Done => Reply::new(0, 0, 0),
            Answer::Time(time) => Reply::new(0, time, 0),
            Answer::State(status) => Reply::new(u8::from(status), 0, 0),
            Answer::Plans {
                plan,
                next,
                slotless,
            } => Reply::new(plan, u32::from(next), slotless),
            Answer::Port(port) => Reply::new(port, 0, 0),
            Answer::Received { length, time, left } => Reply::new(length, time, u32::from(left)),
            Answer::Waiting(count) => Reply::new(0, u32::from(count), 0),
            Answer::Words { pending, mask } => Reply::new(0, pending, mask),
            Answer::Logged { left, entry } => Reply::new(left, entry.time, entry.packed()),
            Answer::Byte(byte) => Reply::new(0, u32::from(byte), 0),
            Answer::Outside => Reply::new(1, 0, 0),
            Answer::Responded(action) => Reply::new(u8::from(action), 0, 0),
        }
    }
}

impl From<Outcome> for Reply {
    ghost from_gives = { λ outcome r. r ≡ reply_of outcome };

    fn from(outcome: Outcome) -> Reply {
        match outcome {
            Ok(answer) => Reply::from(answer),
            Err(refusal) => Reply {
                code: i32::from(refusal),
                a: 0,
                b: 0,
            },
        }
    }
}
