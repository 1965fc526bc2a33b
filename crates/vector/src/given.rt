//! Which fault events have an action.
ghost use Rattle.std.specs.Prelude.{◌≡◌, false, replicate};
ghost use Rattle.vector.specs.Sofars.{giving, is_given};

use tables::{Event, Scope};

// Two arrays as in the tables: the events of a partition and of the system are numbered apart, and no row has both.
/// Which events of each partition, and of the system from event 8 on, the vector has given an action.
#[derive(Drop)]
pub(crate) struct Given {
    pub(crate) partitions: [[bool; 8]; 8],
    pub(crate) system: [bool; 4],
}

impl Given {
    pub(crate) fn has(&self, event: Event) -> bool
        ensures { result ≡ is_given event.scope event.number self.now }
    {
        let number = event.number as usize;
        match event.scope {
            Scope::Partition(partition) => self.partitions[partition as usize][number],
            Scope::System => self.system[number - 8],
        }
    }

    pub(crate) fn set(&mut self, event: Event)
        ensures { self.new ≡ giving event.scope event.number self.old }
    {
        let number = event.number as usize;
        match event.scope {
            Scope::Partition(partition) => self.partitions[partition as usize][number] = true,
            Scope::System => self.system[number - 8] = true,
        }
    }
}
