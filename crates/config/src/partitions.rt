// What the configuration says of the partitions: who is there, who manages whom, their links, their lines, what happens at their
// faults, and how large their areas are.
ghost use Rattle.std.specs.Prelude.{◌≡◌, ◌<◌, IfSome, if◌then◌else◌, Some, None};
ghost use Rattle.machine.specs.Questions.{exists, is_system, manages, link, owner};
ghost use Rattle.machine.specs.Step.{fits};
ghost use Rattle.config.specs.Responses.{response_of};

use crate::Config;
use crate::below::{Below, Guest};
use board::Board;
use tables::{Class, Event, Response, Scope};

impl Config {
    /// The partition of this number, if the vector has it.
    pub fn partition(&self, number: u32) -> Option<Guest>
        ensures is { result ≡ (if exists self.now.tables number then Some number else None) }
        ensures there { IfSome result (λ q. q < self.now.tables.partitions.count) }
    {
        if (number as usize) < self.tables.partitions.count {
            Some(Guest::new(number as u8))
        } else {
            None
        }
    }

    /// Whether q is a system partition.
    pub fn is_system(&self, q: u8) -> bool
        ensures { result ≡ is_system self.now.tables q }
    {
        self.tables
            .partitions
            .rows
            .get(usize::from(q))
            .is_some_and(|row| row.class == Class::System)
    }

    /// Whether q may manage the partition t: any, if it is a system partition, else itself.
    pub fn is_managing(&self, q: u8, t: u32) -> bool
        ensures { result ≡ manages self.now.tables q t }
    {
        self.is_system(q) || t == u32::from(q)
    }

    /// The mask of q's link of a number; 0 where there is none.
    pub fn mask_of(&self, q: Guest, number: Below<8>) -> u8
        ensures { result ≡ link self.now.tables q number }
    {
        self.tables.partitions.rows[q.index()].links[number.index()].unwrap_or(0)
    }

    /// Who owns a line.
    pub fn owner_of(&self, line: Below<16>) -> Option<Guest>
        ensures { result ≡ owner self.now.tables line }
    {
        match self.tables.lines[line.index()] {
            Some(q) => Some(Guest::new(q)),
            None => None,
        }
    }

    /// What the fault table says at an event of a scope.
    pub fn response(&self, event: Event) -> Response
        ensures { result ≡ response_of self.now.tables event.scope event.number }
    {
        match event.scope {
            Scope::Partition(q) => {
                self.tables.partitions.rows[usize::from(q)].responses[usize::from(event.number)]
            }
            Scope::System => self.tables.system[usize::from(event.number - 8)],
        }
    }

    /// Whether each partition's area has the size that the vector gives.
    pub fn fits<B: Board>(&self, board: &B) -> bool
        ensures { result ≡ fits self.now.tables (B.areas board.now) }
    {
        let mut fitting = true;
        for (i, row) in self.tables.partitions.as_slice().iter().enumerate() {
            fitting &= board.size(i) == usize::from(row.size);
        }
        fitting
    }
}
