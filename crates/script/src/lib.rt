//! The script format: a vector and a history read from bytes, and the text of an answer.
#![tactic(auto)]

ghost use Rattle.script.specs.Reading.{Reads};

use crate::error::ScriptError;
use crate::history::read_history;
use crate::opening::divide;
use machine::event::Exchange;
use std::alloc::Global;

pub mod error;
pub(crate) mod history;
pub mod line;
pub(crate) mod opening;
#[cfg(test)]
mod tests;

/// The bytes of the vector, not looked at yet, and the events, each with the answer Done.
#[derive(Drop)]
pub struct Script<'a> {
    pub vector: &'a [u8],
    pub history: Vec<Exchange>,
}

/// Reads a script, up to the end of the bytes.
pub fn read_script<'a>(heap: Global, bytes: &'a [u8]) -> Result<Script<'a>, ScriptError>
    ensures { Reads bytes.now result }
{
    let opening = divide(bytes).ok_or(ScriptError::Malformed)?;
    let history = read_history(heap, opening.records)?;
    Ok(Script {
        vector: opening.vector,
        history,
    })
}
