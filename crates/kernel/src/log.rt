// The log: the last 32 entries.
ghost use Rattle.std.specs.Prelude.{◌≡◌, [], length};
ghost use Rattle.queue.specs.Ring.{first, rest, over};

use machine::log::Entry;
use queue::Queue;
use std::marker::Model;
use tables::{Action, Scope};

#[derive(Drop)]
pub struct Log {
    queue: Queue<Entry, 32>,
}

// Clauses see the entries, oldest first.
impl Model for Log {
    ghost use Rattle.std.specs.Prelude.{List};
    ghost use Rattle.machine.specs.declared.log.Entry.{Entry};

    ghost Value = { List Entry };

    ghost view = { λ l. l.queue };
}

impl Log {
    pub(crate) fn new() -> Log
        ensures { result ≡ [] }
    {
        let blank = Entry {
            action: Action::Ignore,
            scope: Scope::System,
            event: 0,
            time: 0,
        };
        Log {
            queue: Queue::new(blank),
        }
    }

    /// One entry more; the oldest of 32 gives way.
    pub(crate) fn note(&mut self, e: Entry)
        ensures { self.new ≡ over 32 self.old e }
    {
        self.queue.push_over(e);
    }

    pub(crate) fn clear(&mut self)
        ensures { self.new ≡ [] }
    {
        self.queue.clear();
    }

    /// Takes the oldest entry.
    pub(crate) fn take(&mut self) -> Option<Entry>
        ensures took { result ≡ first self.old }
        ensures left { self.new ≡ rest self.old }
    {
        self.queue.pop()
    }

    /// How many entries there are.
    pub(crate) fn count(&self) -> u8
        ensures { result ≡ length self.now }
    {
        self.queue.count() as u8
    }
}
