//! A channel, and the two kinds of channels.
ghost use Rattle.std.specs.Prelude.{◌≡◌, ◌+◌, ◌^◌, ◌<◌};
ghost use Rattle.std.specs.Result.{result_ok};
ghost use Rattle.tables.specs.Blank.{channel0};
ghost use Rattle.tables.specs.Numbers.{channel_kind_by};
ghost use Rattle.tables.specs.Rows.{ported};

use crate::UnknownNumber;

/// A sampling channel holds the last message, a queuing channel all that were not read yet.
#[derive(Clone, Copy, Debug, PartialEq, Eq)]
pub enum ChannelKind {
    Sampling,
    Queuing,
}

impl TryFrom<u8> for ChannelKind {
    type Error = UnknownNumber;

    ghost try_from_gives = { λ number r. result_ok r ≡ channel_kind_by number };

    fn try_from(number: u8) -> Result<ChannelKind, UnknownNumber> {
        match number {
            0 => Ok(ChannelKind::Sampling),
            1 => Ok(ChannelKind::Queuing),
            _ => Err(UnknownNumber),
        }
    }
}

/// A channel: its longest message in bytes, how many messages it holds, and how many ports it has.
#[derive(Clone, Copy, Debug, PartialEq, Eq)]
pub struct Channel {
    pub kind: ChannelKind,
    pub longest: u16,
    pub depth: u8,
    pub ports: usize,
}

impl Channel {
    pub(crate) fn none() -> Channel
        ensures { result ≡ channel0 }
    {
        Channel {
            kind: ChannelKind::Sampling,
            longest: 0,
            depth: 0,
            ports: 0,
        }
    }

    pub(crate) fn add_port(&mut self)
        requires { self.now.ports + 1 < 2 ^ 64 }
        ensures { self.new ≡ ported self.old }
    {
        self.ports += 1;
    }
}
