// An event record: framed as the records of a vector are, with a kind of its own and a body of that kind's length.
ghost use Rattle.events.specs.Records.{Splits};

use crate::body::read_body;
use crate::kind::EventKind;
use frame::front;
use machine::event::Event;

/// The event of the first record, and the bytes after that record.
#[derive(Clone, Copy, Debug, PartialEq, Eq)]
pub struct Cut<'a> {
    pub event: Event,
    pub rest: &'a [u8],
}

/// Cuts the first record off; None where it is malformed: there is no other way to fail, and the caller names that error.
pub fn next_event<'a>(bytes: &'a [u8]) -> Option<Cut<'a>>
    ensures { Splits bytes.now result }
{
    let record = front(bytes)?;
    let kind = EventKind::try_from(record.kind).ok()?;
    Some(Cut {
        event: read_body(kind, record.body)?,
        rest: record.rest,
    })
}
