// The circle of a partition, as a mask. The machine states it by numbers of ports, partitions and links, and each body below hands
// its number on, so the range is the iterator, and a fold would be no plainer.
ghost use Rattle.std.specs.Prelude.{◌≡◌, ◌<◌, true, IfSome};
ghost use Rattle.machine.specs.Partitions.{bit};
ghost use Rattle.machine.specs.Questions.{exists};
ghost use Rattle.machine.specs.Circle.{Circle, feeds, joined, with_pair, with_port, with_raiser, with_links, grown, circle_of};
ghost use Rattle.config.specs.Circles.{circle_mask};

use crate::Config;
use crate::below::{Below, Guest};
use crate::masks::is_member;
use tables::{ChannelKind, Direction};

/// The mask with the partition in it, where the test holds.
fn join(test: bool, q: Guest, mask: u8) -> u8
    ensures { result ≡ joined test q mask }
{
    if test { mask | (1 << q.number()) } else { mask }
}

impl Config {
    /// Whether port i is a source and port j a destination of one channel.
    fn is_feeding(&self, i: usize, j: usize) -> bool
        requires i { i < 32 }
        requires j { j < 32 }
        ensures { result ≡ feeds self.now.tables i j }
    {
        let source = &self.tables.ports.rows[i];
        let destination = &self.tables.ports.rows[j];
        source.direction == Direction::Source
            && destination.channel == source.channel
            && destination.direction == Direction::Destination
    }

    /// The owner of a source port where the reader is in, and the reader of a queue where its writer is in.
    fn with_pair(&self, i: usize, j: usize, mask: u8) -> u8
        requires i { i < self.now.tables.ports.count }
        requires j { j < self.now.tables.ports.count }
        ensures { result ≡ with_pair self.now.tables i j mask }
    {
        let writer = Guest::new(self.tables.ports.rows[i].partition);
        let reader = Guest::new(self.tables.ports.rows[j].partition);
        let channel = self.tables.ports.rows[i].channel;
        let kind = self.tables.channels.rows[channel as usize].kind;
        let feeds = self.is_feeding(i, j);
        let more = join(feeds && is_member(mask, reader), writer, mask);
        join(
            feeds && kind == ChannelKind::Queuing && is_member(more, writer),
            reader,
            more,
        )
    }

    /// Port i with every port.
    fn with_port(&self, i: usize, mask: u8) -> u8
        requires { i < self.now.tables.ports.count }
        ensures { result ≡ with_port self.now.tables i mask }
    {
        let mut found = mask;
        for j in 0..self.tables.ports.count {
            found = self.with_pair(i, j, found);
        }
        found
    }

    /// The partition, where its link names one that is in.
    fn with_raiser(&self, q: Guest, n: Below<8>, mask: u8) -> u8
        ensures { result ≡ with_raiser self.now.tables q n mask }
    {
        join(self.mask_of(q, n) & mask != 0, q, mask)
    }

    /// The eight links of a partition.
    fn with_links(&self, q: Guest, mask: u8) -> u8
        ensures { result ≡ with_links self.now.tables q mask }
    {
        let mut found = mask;
        for n in 0..8u8 {
            found = self.with_raiser(q, Below::new(n), found);
        }
        found
    }

    /// One round: whom the rules ask for, given who is in.
    fn with_round(&self, mask: u8) -> u8
        ensures { result ≡ grown self.now.tables mask }
    {
        let mut found = mask;
        for i in 0..self.tables.ports.count {
            found = self.with_port(i, found);
        }
        for q in 0..self.tables.partitions.count {
            found = self.with_links(Guest::new(q as u8), found);
        }
        found
    }

    /// The circle of a partition that is there: eight rounds, from it and the system partitions on.
    fn circle_of(&self, partition: Guest) -> u8
        requires { exists self.now.tables partition ≡ true }
        ensures is { result ≡ circle_of self.now.tables partition }
        ensures least { Circle self.now.tables partition (bit result) }
    {
        let mut found = 1u8 << partition.number();
        for q in 0..self.tables.partitions.count {
            found = join(self.is_system(q as u8), Guest::new(q as u8), found);
        }
        for round in 0..8usize {
            found = self.with_round(found);
        }
        found
    }

    /// The circle of a partition, the least closed set: bit i is set where partition i is in it. None where the vector has no
    /// such partition.
    pub fn circle(&self, partition: u8) -> Option<u8>
        ensures is { result ≡ circle_mask self.now.tables partition }
        ensures least { IfSome result (λ m. Circle self.now.tables partition (bit m)) }
    {
        let there = self.partition(u32::from(partition))?;
        Some(self.circle_of(there))
    }
}
