// Numbers below a bound: a partition's, a channel's, an IPVI's, a line's.
ghost use Rattle.std.specs.Prelude.{◌≡◌, ℕ, ◌<◌};

use std::marker::Model;

/// A number below N. Clauses see the number.
#[derive(Clone, Copy)]
pub struct Below<const N: usize> {
    number: u8,
}

impl<const N: usize> Model for Below<N> {
    ghost Value = { ℕ };

    ghost view = { λ b. b.number };

    ghost invariant = { λ b. b.number < N };

    ghost inverse = { λ n. record { number = n } };
}

impl<const N: usize> Below<N> {
    // The step from a bound that is known to the type that keeps it: whoever calls this has tested the number, or found it in a
    // table, and a second test here could never fail.
    /// The number, of which it is known that it is below N.
    pub fn new(number: u8) -> Below<N>
        requires { number < N }
        ensures { result ≡ number }
    {
        Below { number }
    }

    /// The number itself.
    pub fn number(self) -> u8
        ensures is { result ≡ self.entry }
        ensures below { result < N }
    {
        self.number
    }

    /// Its place in a table.
    pub fn index(self) -> usize
        ensures is { result ≡ self.entry }
        ensures below { result < N }
    {
        usize::from(self.number)
    }
}

/// The partition that an event comes from, or that a call is on.
pub type Guest = Below<8>;

/// The channel of a port.
pub type ChannelNumber = Below<8>;
