// The event records up to the end of the bytes.
ghost use Rattle.script.specs.Reading.{Lists};

use crate::error::ScriptError;
use events::next_event;
use machine::answer::Answer;
use machine::event::Exchange;
use std::alloc::Global;

/// The events of the records, each with the answer Done.
pub(crate) fn read_history(heap: Global, records: &[u8]) -> Result<Vec<Exchange>, ScriptError>
    ensures { Lists records.now result }
{
    let mut history = Vec::new(heap);
    let mut rest = records;
    // Records differ in length: each is cut off the front of what is left, and no index is counted.
    while !rest.is_empty() {
        let cut = next_event(rest).ok_or(ScriptError::Malformed)?;
        history.push(Exchange {
            event: cut.event,
            answer: Ok(Answer::Done),
        })?;
        rest = cut.rest;
    }
    Ok(history)
}
