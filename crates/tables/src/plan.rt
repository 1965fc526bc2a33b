//! A cyclic plan and its slots.
ghost use Rattle.std.specs.Prelude.{◌≡◌, ◌<◌};
ghost use Rattle.tables.specs.Blank.{slot0};
ghost use Rattle.tables.specs.Rows.{end_of, placed, plan_with, slot_end};

use crate::Slots;
use crate::table::Table;

/// An offset or a length in a frame, in microseconds.
pub type Offset = u32;

/// A slot of a plan: which partition runs, from which offset in the frame, and for how long.
#[derive(Clone, Copy, Debug, PartialEq, Eq)]
pub struct Slot {
    pub partition: u8,
    pub start: Offset,
    pub duration: Offset,
}

impl Slot {
    pub(crate) fn none() -> Slot
        ensures { result ≡ slot0 }
    {
        Slot {
            partition: 0,
            start: 0,
            duration: 0,
        }
    }

    /// The offset in microseconds at which it ends; a sum of two 32-bit numbers.
    pub fn end(&self) -> u64
        ensures { result ≡ slot_end self.now }
    {
        self.start as u64 + self.duration as u64
    }
}

/// A cyclic plan: the length of its frame, and its slots.
#[derive(Clone, Copy, Debug, PartialEq, Eq)]
pub struct Plan {
    pub frame: Offset,
    pub slots: Slots,
}

impl Plan {
    pub(crate) fn new(frame: Offset) -> Plan
        ensures { result ≡ plan_with frame }
    {
        Plan {
            frame,
            slots: Table::new(Slot::none()),
        }
    }

    /// The offset in microseconds at which the last slot ends; 0 while there is none.
    pub fn end(&self) -> u64
        ensures { result ≡ end_of self.now }
    {
        if self.slots.count == 0 {
            return 0;
        }
        self.slots.last_or(Slot::none()).end()
    }

    pub(crate) fn add_slot(&mut self, slot: Slot)
        requires { self.now.slots.count < 16 }
        ensures { self.new ≡ placed slot self.old }
    {
        self.slots.push(slot);
    }
}
