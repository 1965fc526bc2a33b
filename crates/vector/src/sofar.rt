//! What the records so far have said: whether a record of a kind is in turn, what is owed at the end, and how a record that was heard
//! joins them.
ghost use Rattle.std.specs.Prelude.{◌≡◌, ◌<◌, ◌≤◌};
ghost use Rattle.std.specs.Result.{IfErr};
ghost use Rattle.tables.specs.Rows.{open_channel};
ghost use Rattle.vector.specs.Bodies.{said_of};
ghost use Rattle.vector.specs.Joins.{Ready, left_by, joined, joined_action, joined_channel, joined_line, joined_link, joined_partition, joined_port, joined_slot};
ghost use Rattle.vector.specs.Out.{out};
ghost use Rattle.vector.specs.Reasons.{frame_reason};
ghost use Rattle.vector.specs.Sofars.{nothing, with_header};
ghost use Rattle.vector.specs.Turns.{ending, has_partitions, has_plans, has_ports, ready, settled, turned};

use crate::given::Given;
use crate::kind::{Kind, may_end};
use crate::record::Record;
use crate::refusal::{FrameFault, RelationFault};
use crate::relations::{admit, is_clashing, is_full, is_named};
use tables::{Channel, Event, Name, PartitionRow, Port, Response, Slot, Tables};

// No Copy, so that no step copies the tables unseen.
/// The last record's kind, the numbers of partitions and plans that the header promised, and the tables.
#[derive(Drop)]
pub(crate) struct Sofar {
    pub(crate) last: Option<Kind>,
    pub(crate) partitions: u8,
    pub(crate) plans: u8,
    pub(crate) given: Given,
    pub(crate) tables: Tables,
}

impl Sofar {
    pub(crate) fn new() -> Sofar
        ensures { result ≡ nothing }
    {
        Sofar {
            last: None,
            partitions: 0,
            plans: 0,
            given: Given {
                partitions: [[false; 8]; 8],
                system: [false; 4],
            },
            tables: Tables::blank(),
        }
    }

    fn has_partitions(&self) -> bool
        ensures { result ≡ has_partitions self.now }
    {
        self.tables.partitions.count == self.partitions as usize
    }

    fn has_plans(&self) -> bool
        ensures { result ≡ has_plans self.now }
    {
        self.tables.plans.count == self.plans as usize
    }

    /// The last channel, if there is one, has two ports or more.
    fn has_ports(&self) -> bool
        ensures { result ≡ has_ports self.now }
    {
        self.tables.channels.count == 0 || self.tables.open_channel().ports >= 2
    }

    /// Whether the tables are ready for a record of this kind.
    fn is_ready_for(&self, kind: Kind) -> bool
        ensures { result ≡ ready kind self.now }
    {
        // each kind asks another thing of the tables: no comparison would say it
        match kind {
            Kind::Header => true,
            Kind::Partition => self.tables.partitions.count < self.partitions as usize,
            Kind::Plan => self.has_partitions() && self.tables.plans.count < self.plans as usize,
            Kind::Slot => self.tables.plans.count >= 1,
            Kind::Port => self.tables.channels.count >= 1,
            Kind::Channel | Kind::Ipvi | Kind::Line | Kind::Action => self.has_plans()
                && self.has_ports(),
        }
    }

    pub(crate) fn turn(&self, kind: Kind, at: usize) -> Result<(), FrameFault>
        ensures { out frame_reason (λ u. u) result ≡ turned at kind self.now }
    {
        if kind.may_follow(self.last) && self.is_ready_for(kind) {
            Ok(())
        } else {
            Err(FrameFault::OutOfTurn { at })
        }
    }

    fn is_settled(&self) -> bool
        ensures { result ≡ settled self.now }
    {
        may_end(self.last) && self.has_partitions() && self.has_plans() && self.has_ports()
    }

    /// The end of the bytes.
    pub(crate) fn finish(&self, at: usize) -> Result<(), FrameFault>
        ensures { out frame_reason (λ _. self.now) result ≡ ending at self.now }
    {
        if self.is_settled() {
            Ok(())
        } else {
            Err(FrameFault::Owed { at })
        }
    }

    fn set_header(&mut self, partitions: u8, plans: u8)
        ensures { self.new ≡ with_header partitions plans self.old }
    {
        self.last = Some(Kind::Header);
        self.partitions = partitions;
        self.plans = plans;
    }

    fn join_partition(&mut self, row: PartitionRow, at: usize) -> Result<(), RelationFault>
        requires { self.now.tables.partitions.count < 8 }
        ensures is { left_by result self.new ≡ joined_partition at self.old row }
        ensures kept { IfErr result (λ _. self.new ≡ self.old) }
    {
        if is_named(self.tables.partitions.as_slice(), &row.name) {
            return Err(RelationFault::Repeated { at });
        }
        self.tables.add_partition(row);
        self.last = Some(Kind::Partition);
        Ok(())
    }

    fn join_slot(&mut self, slot: Slot, at: usize) -> Result<(), RelationFault>
        requires begun { 1 ≤ self.now.tables.plans.count }
        requires few { self.now.tables.plans.count ≤ 4 }
        ensures is { left_by result self.new ≡ joined_slot at self.old slot }
        ensures kept { IfErr result (λ _. self.new ≡ self.old) }
    {
        admit(
            &self.tables.plans.rows[self.tables.plans.count - 1],
            &slot,
            at,
        )?;
        self.tables.add_slot(slot);
        self.last = Some(Kind::Slot);
        Ok(())
    }

    fn join_channel(&mut self, channel: Channel, at: usize) -> Result<(), RelationFault>
        ensures is { left_by result self.new ≡ joined_channel at self.old channel }
        ensures kept { IfErr result (λ _. self.new ≡ self.old) }
    {
        if self.tables.channels.count >= 8 {
            return Err(RelationFault::TooMany { at });
        }
        self.tables.add_channel(channel);
        self.last = Some(Kind::Channel);
        Ok(())
    }

    fn join_port(&mut self, port: Port, at: usize) -> Result<(), RelationFault>
        requires begun { 1 ≤ self.now.tables.channels.count }
        requires few { self.now.tables.channels.count ≤ 8 }
        requires counted { (open_channel self.now.tables).ports ≤ self.now.tables.ports.count }
        ensures is { left_by result self.new ≡ joined_port at self.old port }
        ensures kept { IfErr result (λ _. self.new ≡ self.old) }
    {
        if is_full(&self.tables) {
            return Err(RelationFault::TooMany { at });
        }
        if is_clashing(self.tables.ports.as_slice(), &port) {
            return Err(RelationFault::Repeated { at });
        }
        self.tables.add_port(port);
        self.last = Some(Kind::Port);
        Ok(())
    }

    fn join_link(
        &mut self,
        number: u8,
        source: u8,
        mask: u8,
        at: usize,
    ) -> Result<(), RelationFault>
        requires number { number < 8 }
        requires source { source < 8 }
        ensures is { left_by result self.new ≡ joined_link at self.old number source mask }
        ensures kept { IfErr result (λ _. self.new ≡ self.old) }
    {
        if self.tables.partitions.rows[source as usize].links[number as usize].is_some() {
            return Err(RelationFault::Repeated { at });
        }
        self.tables.set_link(number, source, mask);
        self.last = Some(Kind::Ipvi);
        Ok(())
    }

    fn join_line(&mut self, line: u8, partition: u8, at: usize) -> Result<(), RelationFault>
        requires { line < 16 }
        ensures is { left_by result self.new ≡ joined_line at self.old line partition }
        ensures kept { IfErr result (λ _. self.new ≡ self.old) }
    {
        if self.tables.lines[line as usize].is_some() {
            return Err(RelationFault::Repeated { at });
        }
        self.tables.set_line(line, partition);
        self.last = Some(Kind::Line);
        Ok(())
    }

    fn join_action(
        &mut self,
        event: Event,
        response: Response,
        at: usize,
    ) -> Result<(), RelationFault>
        ensures is { left_by result self.new ≡ joined_action at self.old event.scope event.number response }
        ensures kept { IfErr result (λ _. self.new ≡ self.old) }
    {
        if self.given.has(event) {
            return Err(RelationFault::Repeated { at });
        }
        self.given.set(event);
        self.tables.respond(event, response);
        self.last = Some(Kind::Action);
        Ok(())
    }

    /// A record that was heard goes into the tables, or is refused and leaves them as they are.
    pub(crate) fn join(&mut self, said: Record, at: usize) -> Result<(), RelationFault>
        requires { Ready self.now (said_of said) }
        ensures is { left_by result self.new ≡ joined at self.old (said_of said.entry) }
        ensures kept { IfErr result (λ _. self.new ≡ self.old) }
    {
        match said {
            Record::Header { partitions, plans } => {
                self.set_header(partitions, plans);
                Ok(())
            }
            Record::Partition { class, size, name } => {
                self.join_partition(PartitionRow::new(class, size, Name::of(name.bytes)), at)
            }
            Record::Plan { frame } => {
                self.tables.add_plan(frame);
                self.last = Some(Kind::Plan);
                Ok(())
            }
            Record::Slot {
                partition,
                start,
                duration,
            } => {
                self.join_slot(
                    Slot {
                        partition,
                        start,
                        duration,
                    },
                    at,
                )
            }
            Record::Channel {
                kind,
                longest,
                depth,
            } => {
                self.join_channel(
                    Channel {
                        kind,
                        longest,
                        depth,
                        ports: 0,
                    },
                    at,
                )
            }
            Record::Port {
                partition,
                direction,
                name,
            } => {
                let channel = (self.tables.channels.count - 1) as u8;
                self.join_port(
                    Port {
                        partition,
                        channel,
                        direction,
                        name: Name::of(name.bytes),
                    },
                    at,
                )
            }
            Record::Ipvi {
                number,
                source,
                mask,
            } => self.join_link(number, source, mask, at),
            Record::Line { line, partition } => self.join_line(line, partition, at),
            Record::Action {
                scope,
                event,
                action,
                log,
            } => {
                let event = Event {
                    scope,
                    number: event,
                };
                self.join_action(event, Response { action, log }, at)
            }
        }
    }
}
