//! A port, and its direction.
ghost use Rattle.std.specs.Prelude.{◌≡◌};
ghost use Rattle.tables.specs.Numbers.{direction_number};
ghost use Rattle.tables.specs.Rows.{no_port};

use crate::name::Name;

/// Whether messages leave the partition by the port or come to it; 0 and 1 in a record.
#[derive(Clone, Copy, Debug, PartialEq, Eq)]
pub enum Direction {
    Source,
    Destination,
}

impl From<Direction> for u8 {
    ghost from_gives = { λ direction number. number ≡ direction_number direction };

    fn from(direction: Direction) -> u8 {
        match direction {
            Direction::Source => 0,
            Direction::Destination => 1,
        }
    }
}

/// A port: whose it is, which channel it belongs to, and its name.
#[derive(Clone, Copy, Debug, PartialEq, Eq)]
pub struct Port {
    pub partition: u8,
    pub channel: u8,
    pub direction: Direction,
    pub name: Name,
}

impl Port {
    pub(crate) fn none() -> Port
        ensures { result ≡ no_port }
    {
        Port {
            partition: 0,
            channel: 0,
            direction: Direction::Source,
            name: Name::none(),
        }
    }
}
