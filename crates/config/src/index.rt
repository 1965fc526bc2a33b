// An index of the ports, so that no event looks through all of them.
ghost use Rattle.std.specs.Prelude.{◌≡◌, ◌<◌};
ghost use Rattle.tables.specs.Sound.{SoundPorts};
ghost use Rattle.config.specs.Index.{Indexed, marked, added};

use crate::ports::is_source;
use tables::{ChannelKind, Port, Tables};

/// Sets of ports as masks: bit i is port i's. For each partition those on sampling and on queuing channels, and for each channel
/// its destinations.
#[derive(Clone, Copy)]
pub(crate) struct Index {
    pub(crate) sampling: [u32; 8],
    pub(crate) queuing: [u32; 8],
    pub(crate) hearing: [u32; 8],
}

/// Sets the bit i in a row's word, where the test holds.
fn mark(words: &mut [u32; 8], row: u8, i: usize, test: bool)
    requires row { row < 8 }
    requires bit { i < 32 }
    ensures { words.new ≡ marked test row i words.old }
{
    if test {
        words[row as usize] |= 1 << i;
    }
}

impl Index {
    /// Takes the port i in, which is on a channel of this type.
    fn add(&mut self, i: usize, port: &Port, kind: ChannelKind)
        requires partition { port.now.partition < 8 }
        requires channel { port.now.channel < 8 }
        requires bit { i < 32 }
        ensures { self.new ≡ added i port.now kind self.old }
    {
        let sampling = kind == ChannelKind::Sampling;
        mark(&mut self.sampling, port.partition, i, sampling);
        mark(&mut self.queuing, port.partition, i, !sampling);
        mark(
            &mut self.hearing,
            port.channel,
            i,
            !is_source(port.direction),
        );
    }

    /// The index of tables whose ports are known to be few, each of a partition and a channel below 8.
    pub(crate) fn of(tables: &Tables) -> Index
        requires { SoundPorts tables.now.ports }
        ensures { Indexed tables.now result }
    {
        let mut index = Index {
            sampling: [0; 8],
            queuing: [0; 8],
            hearing: [0; 8],
        };
        for i in 0..tables.ports.count {
            let port = &tables.ports.rows[i];
            let kind = tables.channels.rows[port.channel as usize].kind;
            index.add(i, port, kind);
        }
        index
    }
}
