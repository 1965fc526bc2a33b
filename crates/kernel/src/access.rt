// Who may do what: who is on the processor, which partition a call is on, and which port and channel a message goes by. Each
// answers what was asked for, or the refusal that the event leaves with.
ghost use Rattle.std.specs.Prelude.{◌≡◌, ℕ, ◌<◌, ◌≤◌, true, IfOk, slice_index, slice_index_or};
ghost use Rattle.machine.specs.Partitions.{nobody, is_open};
ghost use Rattle.machine.specs.Ports.{sendable as sendable_of};
ghost use Rattle.machine.specs.Ports.{usable as usable_of};
ghost use Rattle.board.specs.Areas.{area};
ghost use Rattle.kernel.specs.Targets.{target_of, system_only, on_processor, Runs, source_in, destination_in, InArea};
ghost use Rattle.kernel.specs.World.{core_of};

use crate::copies::is_ranged;
use crate::system::System;
use board::Board;
use config::{Below, ChannelNumber, Guest};
use machine::answer::Refusal;
use machine::event::Args;
use tables::{ChannelKind, Direction};

impl<B: Board> System<B> {
    /// The partition of this number, if it is on the processor: it is there and READY, and its slot runs.
    pub(crate) fn running(&self, q: u8) -> Result<Guest, Refusal>
        ensures is { result ≡ on_processor self.now.core.config.tables (core_of self.now.core) q }
        ensures runs { Runs self.now.core.config.tables (core_of self.now.core) q result }
    {
        // A partition whose slot runs is there, so nothing else is asked of the number.
        let Some(guest) = self.core.turn.holder else {
            return Err(Refusal::NotOnProcessor);
        };
        if guest.number() == q && self.core.parts[guest.index()].is_ready() {
            Ok(guest)
        } else {
            Err(Refusal::NotOnProcessor)
        }
    }

    /// The partition that a call of q is on: one that is there, and that q manages.
    pub(crate) fn target(&self, q: Guest, number: u32) -> Result<Guest, Refusal>
        ensures { result ≡ target_of self.now.core.config.tables q number }
    {
        let Some(target) = self.core.config.partition(number) else {
            return Err(Refusal::InvalidParam);
        };
        if !self.core.config.is_managing(q.number(), number) {
            return Err(Refusal::PermError);
        }
        Ok(target)
    }

    /// Leaves with a refusal where q is no system partition.
    pub(crate) fn only_system(&self, q: Guest) -> Result<(), Refusal>
        ensures { result ≡ system_only self.now.core.config.tables q }
    {
        if self.core.config.is_system(q.number()) {
            Ok(())
        } else {
            Err(Refusal::PermError)
        }
    }

    // the bound on i is that of the partition's word
    /// Whether q has opened its port i.
    pub(crate) fn is_open(&self, q: Guest, i: u8) -> bool
        requires { i < 32 }
        ensures { result ≡ is_open i (slice_index_or self.now.core.parts q nobody) }
    {
        self.core.parts[q.index()].is_open(i)
    }

    /// Whether i is an open port of q on a channel of this type.
    pub(crate) fn is_usable(&self, q: Guest, kind: ChannelKind, i: u32) -> bool
        ensures is { result ≡ usable_of self.now.core.config.tables (core_of self.now.core) q kind i }
        ensures there { result ≡ true → i < self.now.core.config.tables.ports.count }
    {
        self.core.config.is_owner(q.number(), kind, i) && self.is_open(q, i as u8)
    }

    /// Whether a range holds 1 byte to the longest message of the port's channel.
    fn is_sendable(&self, q: Guest, args: &Args) -> bool
        requires { slice_index args.now 0 < self.now.core.config.tables.ports.count }
        ensures { result ≡ sendable_of self.now.core.config.tables (area (B.areas self.now.board) q) args.now }
    {
        let channel = self.core.config.tables.ports.rows[args[0] as usize].channel;
        let longest = self.core.config.tables.channels.rows[channel as usize].longest;
        1 <= args[2]
            && args[2] <= u32::from(longest)
            && is_ranged(&self.board, q.index(), args[1], args[2])
    }

    /// The channel that q may send on: its open source port on a channel of this type, and a range that holds a message.
    pub(crate) fn source(
        &self,
        q: Guest,
        kind: ChannelKind,
        args: &Args,
    ) -> Result<ChannelNumber, Refusal>
        ensures is { result ≡ source_in B.areas kind self.now q args.now }
        ensures short { IfOk result (λ _. slice_index args.now 2 ≤ 64) }
        ensures inside { InArea B.areas self.now q args.now result }
    {
        if !(self.is_usable(q, kind, args[0]) && self.is_sendable(q, args)) {
            return Err(Refusal::InvalidParam);
        }
        let port = &self.core.config.tables.ports.rows[args[0] as usize];
        match port.direction {
            Direction::Source => Ok(Below::new(port.channel)),
            Direction::Destination => Err(Refusal::InvalidMode),
        }
    }

    /// The channel that q may receive from: its open destination port on a channel of this type, and a range of its area.
    pub(crate) fn destination(
        &self,
        q: Guest,
        kind: ChannelKind,
        args: &Args,
    ) -> Result<ChannelNumber, Refusal>
        ensures is { result ≡ destination_in B.areas kind self.now q args.now }
        ensures inside { InArea B.areas self.now q args.now result }
    {
        if !(self.is_usable(q, kind, args[0])
            && is_ranged(&self.board, q.index(), args[1], args[2]))
        {
            return Err(Refusal::InvalidParam);
        }
        let port = &self.core.config.tables.ports.rows[args[0] as usize];
        match port.direction {
            Direction::Source => Err(Refusal::InvalidMode),
            Direction::Destination => Ok(Below::new(port.channel)),
        }
    }
}
