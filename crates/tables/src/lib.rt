//! The vocabulary of a checked vector: its tables, their rows, and in specs/ what is true of them.
#![tactic(auto)]

ghost use Rattle.std.specs.Prelude.{◌≡◌, ◌<◌, ◌≤◌};
ghost use Rattle.tables.specs.Rows.{add_channel, add_line, add_link, add_partition, add_plan, add_port, add_slot, blank, open_channel, open_plan, respond};

mod channel;
mod event;
mod name;
mod partition;
mod plan;
mod port;
mod response;
mod table;

use crate::response::default_system_responses;
pub use channel::{Channel, ChannelKind};
pub use event::Event;
pub use name::Name;
pub use partition::{Class, PartitionRow};
pub use plan::{Offset, Plan, Slot};
pub use port::{Direction, Port};
pub use response::{Action, Response, SYSTEM, Scope};
pub use table::Table;

/// A number that stands for no case of what is read.
#[derive(Clone, Copy, Debug, PartialEq, Eq)]
pub struct UnknownNumber;

/// The partitions, at most 8.
pub type Partitions = Table<PartitionRow, 8>;

/// The slots of a plan, at most 16.
pub type Slots = Table<Slot, 16>;

/// The plans, at most 4.
pub type Plans = Table<Plan, 4>;

/// The channels, at most 8.
pub type Channels = Table<Channel, 8>;

/// The ports of all channels, at most 32.
pub type Ports = Table<Port, 32>;

/// All that a vector says; `lines` are the owners of the interrupt lines 0 to 15, `system` the responses to the
/// system's fault events 8 to 11.
#[derive(Clone, Copy, Debug, PartialEq, Eq)]
pub struct Tables {
    pub partitions: Partitions,
    pub plans: Plans,
    pub channels: Channels,
    pub ports: Ports,
    pub lines: [Option<u8>; 16],
    pub system: [Response; 4],
}

// They are big, so they grow where they stand, and so do the rows that grow. Each table is a field of its own, so what adds a row to one is
// one line with the field's name. Each asks for the room or the row that it needs: the reader knows it when a record's turn has come.
impl Tables {
    /// The tables before any record.
    pub fn blank() -> Tables
        ensures { result ≡ blank }
    {
        let row = PartitionRow::new(Class::Standard, 0, Name::none());
        Tables {
            partitions: Table::new(row),
            plans: Table::new(Plan::new(0)),
            channels: Table::new(Channel::none()),
            ports: Table::new(Port::none()),
            lines: [None; 16],
            system: default_system_responses(),
        }
    }

    /// One partition more.
    pub fn add_partition(&mut self, row: PartitionRow)
        requires { self.now.partitions.count < 8 }
        ensures { self.new ≡ add_partition row self.old }
    {
        self.partitions.push(row);
    }

    /// One plan more, with a frame of this length and no slots.
    pub fn add_plan(&mut self, frame: Offset)
        requires { self.now.plans.count < 4 }
        ensures { self.new ≡ add_plan frame self.old }
    {
        self.plans.push(Plan::new(frame));
    }

    /// The plan that was added last gets one more slot.
    pub fn add_slot(&mut self, slot: Slot)
        requires begun { 1 ≤ self.now.plans.count }
        requires few { self.now.plans.count ≤ 4 }
        requires room { (open_plan self.now).slots.count < 16 }
        ensures { self.new ≡ add_slot slot self.old }
    {
        self.plans.rows[self.plans.count - 1].add_slot(slot);
    }

    /// One channel more.
    pub fn add_channel(&mut self, channel: Channel)
        requires { self.now.channels.count < 8 }
        ensures { self.new ≡ add_channel channel self.old }
    {
        self.channels.push(channel);
    }

    /// The channel that was added last; while there is none, an empty row.
    pub fn open_channel(&self) -> Channel
        ensures { result ≡ open_channel self.now }
    {
        self.channels.last_or(Channel::none())
    }

    /// A port of the channel that was added last.
    pub fn add_port(&mut self, port: Port)
        requires begun { 1 ≤ self.now.channels.count }
        requires few { self.now.channels.count ≤ 8 }
        requires room { self.now.ports.count < 32 }
        requires counted { (open_channel self.now).ports ≤ self.now.ports.count }
        ensures { self.new ≡ add_port port self.old }
    {
        self.channels.rows[self.channels.count - 1].add_port();
        self.ports.push(port);
    }

    /// The interrupt of this number, raised by the source, goes to the partitions of the mask.
    pub fn set_link(&mut self, number: u8, source: u8, mask: u8)
        requires number { number < 8 }
        requires source { source < 8 }
        ensures { self.new ≡ add_link number source mask self.old }
    {
        self.partitions.rows[source as usize].links[number as usize] = Some(mask);
    }

    /// The partition owns the line.
    pub fn set_line(&mut self, line: u8, partition: u8)
        requires { line < 16 }
        ensures { self.new ≡ add_line line partition self.old }
    {
        self.lines[line as usize] = Some(partition);
    }

    /// The response to an event of a partition or of the system.
    pub fn respond(&mut self, event: Event, response: Response)
        ensures { self.new ≡ respond event.scope event.number response self.old }
    {
        let number = event.number as usize;
        match event.scope {
            Scope::Partition(partition) => {
                self.partitions.rows[partition as usize].responses[number] = response
            }
            Scope::System => self.system[number - 8] = response,
        }
    }
}
