//! The entrance for other programs: a vector and event records go in as bytes, and the answers come out as bytes. It needs no heap.
#![tactic(auto)]

ghost use Rattle.std.specs.Prelude.{◌≡◌};
ghost use Rattle.vector.specs.Reading.{verdict};
ghost use Rattle.kernel.specs.World.{world_of};
ghost use Rattle.events.specs.Records.{events_of};
ghost use Rattle.entrance.specs.Session.{answers_from, answers_of, events_in, read_of, room_in, ending, ending_of, records_end, Reaches, written};

use crate::encoding::{ANSWER_BYTES, write_reply};
use crate::error::EntranceError;
use board::Board;
use events::next_event;
use kernel::System;
use machine::answer::Reply;
use vector::check;
use vector::checked::Checked;
use zero_boards::fenced;

pub mod encoding;
pub mod error;
pub mod examples;

/// Takes the records one after another, and writes each answer after the one before it.
fn answer_all<B: Board>(
    system: &mut System<B>,
    records: &[u8],
    answers: &mut [u8],
) -> Result<usize, EntranceError>
    ensures ending { ending_of result ≡ records_end (read_of records.now) (room_in answers.old) }
    ensures bytes { answers.new ≡ written (world_of B.areas system.old) (read_of records.now) answers.old }
    ensures world { Reaches (world_of B.areas system.old) records.now answers.old (world_of B.areas system.new) }
{
    let room = answers.len() / ANSWER_BYTES;
    let mut rest = records;
    let mut count = 0;
    while !rest.is_empty() {
        let cut = next_event(rest).ok_or(EntranceError::Malformed)?;
        if count == room {
            return Err(EntranceError::NoRoom);
        }
        // Each answer's place is found by its number: std says nothing of a slice's bytes once its chunks were lent
        // (`chunks_exact_mut`), nor does a proof know them where a loop shortens the slice by `split_first_chunk_mut` (tried).
        let reply = Reply::from(system.event(cut.event));
        write_reply(reply, answers, ANSWER_BYTES * count);
        count += 1;
        rest = cut.rest;
    }
    Ok(count)
}

// A value is filled with zeros where its function begins. Here the board is made before that, so the compiler sees that boot writes
// over most of the zeros, and leaves those out.
/// Boots a checked vector on a board, takes the event records one after another, and writes each answer as `ANSWER_BYTES` bytes:
/// code, a and b, each with the low byte first. The result is the number of events answered, where all are. What was written
/// before an error stays, and nothing else of the answers changes.
pub fn run_on<B: Board + Drop>(
    vector: Checked,
    board: B,
    records: &[u8],
    answers: &mut [u8],
) -> Result<usize, EntranceError>
    ensures ending { ending_of result ≡ records_end (read_of records.now) (room_in answers.old) }
    ensures bytes { answers.new ≡ answers_from vector.entry.bytes.now (B.areas board) records.now answers.old }
{
    let mut system = System::boot(vector, board);
    answer_all(&mut system, records, answers)
}

/// Checks a vector, and runs it on a fenced board of zeros as `run_on` does. The records are read as a script's are.
#[tactic(auto, using(crate::proofs::Joining::events_read))]
pub fn run(vector: &[u8], records: &[u8], answers: &mut [u8]) -> Result<usize, EntranceError>
    ensures ending { ending_of result ≡ ending (verdict vector.now) (read_of records.now) (room_in answers.old) }
    ensures bytes { answers.new ≡ answers_of vector.now records.now answers.old }
    ensures read { events_of records.now ≡ events_in (read_of records.now) }
{
    check(vector)?;
    let vector = Checked::new(vector);
    let board = fenced(vector.shown());
    run_on(vector, board, records, answers)
}
