//! The kinds of records: their numbers, the lengths of their bodies, and their order.
ghost use Rattle.std.specs.Prelude.{◌≡◌};
ghost use Rattle.vector.specs.Frames.{kind_of, suits};
ghost use Rattle.vector.specs.Out.{Reads};
ghost use Rattle.vector.specs.Reasons.{unknown_kind};
ghost use Rattle.vector.specs.Turns.{ends, follows};

use tables::UnknownNumber;

/// The kinds of records, in the order of their numbers, 1 to 9.
#[derive(Clone, Copy, Debug, PartialEq, Eq)]
pub enum Kind {
    Header,
    Partition,
    Plan,
    Slot,
    Channel,
    Port,
    Ipvi,
    Line,
    Action,
}

impl TryFrom<u16> for Kind {
    type Error = UnknownNumber;

    ghost try_from_gives = { Reads kind_of unknown_kind };

    fn try_from(number: u16) -> Result<Kind, UnknownNumber> {
        match number {
            1 => Ok(Kind::Header),
            2 => Ok(Kind::Partition),
            3 => Ok(Kind::Plan),
            4 => Ok(Kind::Slot),
            5 => Ok(Kind::Channel),
            6 => Ok(Kind::Port),
            7 => Ok(Kind::Ipvi),
            8 => Ok(Kind::Line),
            9 => Ok(Kind::Action),
            _ => Err(UnknownNumber),
        }
    }
}

impl Kind {
    /// Whether a body of this kind may have so many bytes.
    pub(crate) fn takes_body(self, length: usize) -> bool
        ensures { result ≡ suits self length }
    {
        match self {
            Kind::Header => length == 2,
            Kind::Partition => (4..=19).contains(&length),
            Kind::Plan => length == 4,
            Kind::Slot => length == 9,
            Kind::Channel => length == 4,
            Kind::Port => (3..=18).contains(&length),
            Kind::Ipvi => length == 3,
            Kind::Line => length == 2,
            Kind::Action => length == 4,
        }
    }

    /// Whether a record of this kind may stand right after one of the kind `last`; the header stands first.
    pub(crate) fn may_follow(self, last: Option<Kind>) -> bool
        ensures { result ≡ follows self last }
    {
        let Some(last) = last else {
            return matches!(self, Kind::Header);
        };
        // each kind asks something else: no comparison would say it
        match self {
            Kind::Header => false,
            Kind::Partition => matches!(last, Kind::Header | Kind::Partition),
            Kind::Plan => matches!(last, Kind::Partition | Kind::Slot),
            Kind::Slot => matches!(last, Kind::Plan | Kind::Slot),
            Kind::Channel => matches!(last, Kind::Slot | Kind::Port),
            Kind::Port => matches!(last, Kind::Channel | Kind::Port),
            Kind::Ipvi => matches!(last, Kind::Slot | Kind::Port | Kind::Ipvi),
            Kind::Line => matches!(last, Kind::Slot | Kind::Port | Kind::Ipvi | Kind::Line),
            Kind::Action => matches!(
                last,
                Kind::Slot | Kind::Port | Kind::Ipvi | Kind::Line | Kind::Action
            ),
        }
    }
}

/// Whether a record of this kind may be the last of a vector.
pub(crate) fn may_end(last: Option<Kind>) -> bool
    ensures { result ≡ ends last }
{
    matches!(
        last,
        Some(Kind::Slot | Kind::Port | Kind::Ipvi | Kind::Line | Kind::Action)
    )
}
