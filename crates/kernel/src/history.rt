// A run: a history of events from the boot.
ghost use Rattle.vector.specs.Reading.{tables as tables_of};
ghost use Rattle.kernel.specs.Promises.{Ends, Isolates, Lawful, Preserves, Ran, Tells};
ghost use Rattle.kernel.specs.World.{world_of};

use crate::system::System;
use board::Board;
use machine::event::Exchange;
use vector::checked::Checked;

/// Takes the events from the boot on, one after another.
fn play<B: Board>(vector: Checked, board: B, history: &mut [Exchange]) -> System<B>
    ensures { Ran B.areas vector.entry.bytes.now board history.old history.new result }
{
    let mut system = System::boot(vector, board);
    for exchange in history.iter_mut() {
        exchange.answer = system.event(exchange.event);
    }
    system
}

/// Boots a checked vector on a board, takes the events of the history one after another, and writes each answer beside its event.
pub fn run<B: Board>(vector: Checked, board: B, history: &mut [Exchange]) -> System<B>
    ensures ends { Ends B.areas vector.entry.bytes.now board history.old result }
    ensures told { Tells B.areas vector.entry.bytes.now board history.old history.new }
    ensures isolated { Isolates B.areas vector.entry.bytes.now board history.old history.new result }
    ensures preserved { Preserves B.areas vector.entry.bytes.now board history.old result }
    ensures lawful { Lawful (tables_of vector.entry.bytes.now) (world_of B.areas result).state.core }
{
    play(vector, board, history)
}
