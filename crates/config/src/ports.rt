// Whose a port is, which port a name finds, and which ports hear of a channel.
ghost use Rattle.std.specs.Prelude.{◌≡◌, ℕ, ◌<◌, IfSome};
ghost use Rattle.tables.specs.Bits.{has_bit};
ghost use Rattle.tables.specs.Names.{same_name};
ghost use Rattle.machine.specs.Questions.{is_source, owns, named};
ghost use Rattle.machine.specs.Questions.{port as port_at};
ghost use Rattle.machine.specs.Searches.{Found};
ghost use Rattle.config.specs.Index.{listens};

use crate::Config;
use crate::masks::take_highest;
use tables::{ChannelKind, Direction, Name};

pub(crate) fn is_source(direction: Direction) -> bool
    ensures { result ≡ is_source direction }
{
    direction == Direction::Source
}

impl Config {
    // That the masks of the index say what the tables say is the configuration's invariant.
    /// The ports of q on channels of this type: bit i is set where port i is one.
    fn ports_of(&self, q: u8, kind: ChannelKind) -> u32
        ensures { (i : ℕ) → has_bit result i ≡ owns self.now.tables q kind i }
    {
        let words = match kind {
            ChannelKind::Sampling => &self.index.sampling,
            ChannelKind::Queuing => &self.index.queuing,
        };
        words.get(usize::from(q)).copied().unwrap_or(0)
    }

    /// Whether i is a port of q on a channel of this type.
    pub fn is_owner(&self, q: u8, kind: ChannelKind, i: u32) -> bool
        ensures { result ≡ owns self.now.tables q kind i }
    {
        i < 32 && self.ports_of(q, kind) >> i & 1 == 1
    }

    /// The destinations of channel c: bit i is set where port i is one.
    pub fn hearing(&self, c: u8) -> u32
        ensures { (i : ℕ) → has_bit result i ≡ listens self.now.tables c i }
    {
        self.index.hearing.get(usize::from(c)).copied().unwrap_or(0)
    }

    /// Whether a port that is there has this name.
    fn is_named(&self, i: u8, name: &Name) -> bool
        requires { i < self.now.tables.ports.count }
        ensures { result ≡ same_name (port_at self.now.tables i).name name.now }
    {
        self.tables.ports.rows[usize::from(i)].name == *name
    }

    /// The number of q's port of this type and name; its only one, where the names of one partition's ports differ.
    #[tactic(auto, using(machine::proofs::Names::found, crate::proofs::Finding::is_found, crate::proofs::Finding::ended))]
    pub fn find_port(&self, q: u8, kind: ChannelKind, name: &Name) -> Option<u8>
        ensures is { result ≡ named self.now.tables q kind name.now self.now.tables.ports.count }
        ensures there { IfSome result (λ i. i < self.now.tables.ports.count) }
        ensures found { Found self.now.tables q kind name.now }
    {
        // the highest first: the greatest number is promised, whether or not the names differ
        let mut left = self.ports_of(q, kind);
        while let Some(i) = take_highest(&mut left) {
            if self.is_named(i, name) {
                return Some(i);
            }
        }
        None
    }
}
