// The channels' messages: a queue of eight for each. A channel's depth is kept by counting.
ghost use Rattle.std.specs.Prelude.{◌≡◌, ◌<◌, ◌≤◌, [], ◌∷◌, ◌++◌, length, replicate, slice_set};
ghost use Rattle.std.specs.Option.{option_map};
ghost use Rattle.queue.specs.Ring.{first, rest};
ghost use Rattle.machine.specs.Letters.{letter_of};
ghost use Rattle.kernel.specs.Channels.{chan_of};

use config::ChannelNumber;
use machine::message::Message;
use queue::Queue;
use std::array;
use std::marker::Model;

#[derive(Drop)]
pub struct Channels {
    queues: [Queue<Message, 8>; 8],
}

// Clauses see the messages of each channel, oldest first.
impl Model for Channels {
    ghost use Rattle.std.specs.Prelude.{◌≡◌, List, length, map};
    ghost use Rattle.machine.specs.Letters.{Letter, letter_of};

    ghost Value = { List (List Letter) };

    ghost view = { λ c. map (map letter_of) c.queues };

    // there are eight of them
    ghost invariant = { λ c. length c.queues ≡ 8 };
}

impl Channels {
    pub(crate) fn new() -> Channels
        ensures { result ≡ replicate 8 [] }
    {
        Channels {
            queues: array::from_fn(|_| Queue::new(Message::blank())),
        }
    }

    /// Empties every channel in its place, which writes far less than a new set of queues.
    pub(crate) fn clear(&mut self)
        ensures { self.new ≡ replicate 8 [] }
    {
        for queue in self.queues.iter_mut() {
            queue.clear();
        }
    }

    /// How many messages wait.
    pub(crate) fn count(&self, c: ChannelNumber) -> usize
        ensures is { result ≡ length (chan_of self.now c) }
        ensures few { result ≤ 8 }
    {
        self.queues[c.index()].count()
    }

    pub(crate) fn oldest(&self, c: ChannelNumber) -> Option<Message>
        ensures { option_map letter_of result ≡ first (chan_of self.now c) }
    {
        self.queues[c.index()].oldest()
    }

    /// Takes the oldest message out, and answers how many are left.
    pub(crate) fn discard(&mut self, c: ChannelNumber) -> u8
        ensures is { self.new ≡ slice_set self.old c (rest (chan_of self.old c)) }
        ensures left { result ≡ length (rest (chan_of self.old c)) }
    {
        let _ = self.queues[c.index()].pop();
        self.queues[c.index()].count() as u8
    }

    /// Empties one channel.
    pub(crate) fn clear_one(&mut self, c: ChannelNumber)
        ensures { self.new ≡ slice_set self.old c [] }
    {
        self.queues[c.index()].clear();
    }

    /// Appends a message, where there is room.
    #[tactic(auto, using(crate::proofs::Channelling::appended))]
    pub(crate) fn append(&mut self, c: ChannelNumber, m: Message)
        requires room { length (chan_of self.old c) < 8 }
        ensures { self.new ≡ slice_set self.old c (chan_of self.old c ++ (letter_of m ∷ [])) }
    {
        let _ = self.queues[c.index()].push(m);
    }
}
