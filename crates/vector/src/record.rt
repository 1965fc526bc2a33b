//! A record of a vector, by what it says.
use tables::{Action, ChannelKind, Class, Direction, Offset, Scope};

/// A name as a part of the vector, and the place of its first byte.
#[derive(Clone, Copy, Debug, PartialEq, Eq)]
pub struct NameIn<'a> {
    pub bytes: &'a [u8],
    pub at: usize,
}

/// What a record says, each number in the range that its field allows; a name is shown as a part of the vector.
#[derive(Clone, Copy, Debug, PartialEq, Eq)]
pub enum Record<'a> {
    Header {
        partitions: u8,
        plans: u8,
    },
    Partition {
        class: Class,
        size: u16,
        name: NameIn<'a>,
    },
    Plan {
        frame: Offset,
    },
    Slot {
        partition: u8,
        start: Offset,
        duration: Offset,
    },
    Channel {
        kind: ChannelKind,
        longest: u16,
        depth: u8,
    },
    Port {
        partition: u8,
        direction: Direction,
        name: NameIn<'a>,
    },
    Ipvi {
        number: u8,
        source: u8,
        mask: u8,
    },
    Line {
        line: u8,
        partition: u8,
    },
    Action {
        scope: Scope,
        event: u8,
        action: Action,
        log: bool,
    },
}
