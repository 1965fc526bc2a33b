//! A partition's row.
ghost use Rattle.std.specs.Prelude.{◌≡◌};
ghost use Rattle.std.specs.Result.{result_ok};
ghost use Rattle.tables.specs.Numbers.{class_by};
ghost use Rattle.tables.specs.Rows.{row_of};

use crate::UnknownNumber;
use crate::name::Name;
use crate::response::{Response, default_responses};

/// The class of a partition: a system partition may manage the others.
#[derive(Clone, Copy, Debug, PartialEq, Eq)]
pub enum Class {
    Standard,
    System,
}

impl TryFrom<u8> for Class {
    type Error = UnknownNumber;

    ghost try_from_gives = { λ number r. result_ok r ≡ class_by number };

    fn try_from(number: u8) -> Result<Class, UnknownNumber> {
        match number {
            0 => Ok(Class::Standard),
            1 => Ok(Class::System),
            _ => Err(UnknownNumber),
        }
    }
}

/// A partition: its class, the size of its area, its name, the responses to its fault events 0 to 7, and its links:
/// the interrupt of each number goes to the partitions of a mask, if there is such a link.
#[derive(Clone, Copy, Debug, PartialEq, Eq)]
pub struct PartitionRow {
    pub class: Class,
    pub size: u16,
    pub name: Name,
    pub responses: [Response; 8],
    pub links: [Option<u8>; 8],
}

impl PartitionRow {
    /// A partition with the responses that hold where the vector says nothing, and no links.
    pub fn new(class: Class, size: u16, name: Name) -> PartitionRow
        ensures { result ≡ row_of class size name }
    {
        PartitionRow {
            class,
            size,
            name,
            responses: default_responses(),
            links: [None; 8],
        }
    }
}
