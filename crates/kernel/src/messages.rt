// The calls that send and receive messages.
ghost use Rattle.std.specs.Prelude.{◌≡◌, ℕ, ◌+◌, ◌<◌, ◌≤◌, length};
ghost use Rattle.machine.specs.declared.answer.Answer.TheVariants.{Done, Received, Waiting};
ghost use Rattle.machine.specs.Shapes.{Shaped};
ghost use Rattle.machine.specs.Ports.{alerted, write_sampling_message, send_queuing_message, read_sampling_message, receive_queuing_message, get_queuing_status};
ghost use Rattle.board.specs.Areas.{area};
ghost use Rattle.kernel.specs.Channels.{chan_of, told};
ghost use Rattle.kernel.specs.Events.{Does, Posts};

use crate::copies::{load_message, store_message};
use crate::system::System;
use board::Board;
use config::{Below, ChannelNumber, Config, Guest, take_lowest};
use machine::answer::{Answer, Outcome, Refusal};
use machine::event::Args;
use machine::message::Message;
use machine::partition::Partition;
use tables::ChannelKind;

/// The bit that signals a message.
const MESSAGE: u32 = 1 << 8;

// the bound on the port is that of the partition's word
/// Tells a partition of a message, where its port is open.
fn tell(partition: &mut Partition, port: u8)
    requires { port < 32 }
    ensures { partition.new ≡ told port partition.old }
{
    if partition.is_open(port) {
        partition.signal(MESSAGE);
    }
}

/// Tells the partition of each open port that hears of the channel.
fn alert(config: &Config, parts: &mut [Partition; 8], c: ChannelNumber)
    ensures { parts.new ≡ alerted config.now.tables c config.now.tables.ports.count parts.old }
{
    let mut left = config.hearing(c.number());
    while let Some(i) = take_lowest(&mut left) {
        let port = &config.tables.ports.rows[i as usize];
        tell(&mut parts[port.partition as usize], i);
    }
}

impl<B: Board> System<B> {
    /// Appends n bytes of q's area to the channel's messages, and tells its readers.
    // Out of line: the message is put together in memory, and in line it would keep every call's outcome there.
    #[inline(never)]
    fn post(&mut self, q: Guest, c: ChannelNumber, at: u32, n: u32)
        requires room { length (chan_of self.old.core.channels c) < 8 }
        requires short { n ≤ 64 }
        requires inside { at + n ≤ length (area (B.areas self.old.board) q) }
        ensures { Posts B.areas q c at n self.old self.new }
    {
        let time = self.core.clock.time;
        let mut message = Message::blank();
        load_message(&mut message, &self.board, q.index(), at, n, time);
        self.core.channels.append(c, message);
        alert(&self.core.config, &mut self.core.parts, c);
    }

    #[tactic(auto, using(crate::proofs::Channelling::only_one))]
    pub(crate) fn write_sampling_message(&mut self, q: Guest, args: Args) -> Outcome
        ensures is { Does B.areas write_sampling_message q args self.old result self.new }
        ensures shaped { Shaped Done result }
    {
        let channel = self.source(q, ChannelKind::Sampling, &args)?;
        self.core.channels.clear_one(channel);
        self.post(q, channel, args[1], args[2]);
        Ok(Answer::Done)
    }

    pub(crate) fn send_queuing_message(&mut self, q: Guest, args: Args) -> Outcome
        ensures is { Does B.areas send_queuing_message q args self.old result self.new }
        ensures shaped { Shaped Done result }
    {
        let channel = self.source(q, ChannelKind::Queuing, &args)?;
        let depth = self.core.config.tables.channels.rows[channel.index()].depth;
        if self.core.channels.count(channel) >= depth as usize {
            return Err(Refusal::NotAvailable);
        }
        self.post(q, channel, args[1], args[2]);
        Ok(Answer::Done)
    }

    pub(crate) fn read_sampling_message(&mut self, q: Guest, args: Args) -> Outcome
        ensures is { Does B.areas read_sampling_message q args self.old result self.new }
        ensures shaped { Shaped (Received 0 0 0) result }
    {
        let channel = self.destination(q, ChannelKind::Sampling, &args)?;
        let message = self.core.channels.oldest(channel).ok_or(Refusal::NoAction)?;
        let size = message.size();
        if size > args[2] as usize {
            return Err(Refusal::InvalidConfig);
        }
        store_message(&message, &mut self.board, q.index(), args[1]);
        Ok(Answer::Received {
            length: size as u8,
            time: message.time,
            left: 0,
        })
    }

    pub(crate) fn receive_queuing_message(&mut self, q: Guest, args: Args) -> Outcome
        ensures is { Does B.areas receive_queuing_message q args self.old result self.new }
        ensures shaped { Shaped (Received 0 0 0) result }
    {
        let channel = self.destination(q, ChannelKind::Queuing, &args)?;
        let message = self
            .core
            .channels
            .oldest(channel)
            .ok_or(Refusal::NotAvailable)?;
        let size = message.size();
        if size > args[2] as usize {
            return Err(Refusal::InvalidConfig);
        }
        store_message(&message, &mut self.board, q.index(), args[1]);
        let left = self.core.channels.discard(channel);
        Ok(Answer::Received {
            length: size as u8,
            time: message.time,
            left,
        })
    }

    pub(crate) fn get_queuing_status(&mut self, q: Guest, args: Args) -> Outcome
        ensures is { Does B.areas get_queuing_status q args self.old result self.new }
        ensures shaped { Shaped (Waiting 0) result }
    {
        if !self.is_usable(q, ChannelKind::Queuing, args[0]) {
            return Err(Refusal::InvalidParam);
        }
        let channel = Below::new(self.core.config.tables.ports.rows[args[0] as usize].channel);
        Ok(Answer::Waiting(self.core.channels.count(channel) as u8))
    }
}
