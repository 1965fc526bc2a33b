// The kinds of event records: the one place of their numbers.
ghost use Rattle.std.specs.Prelude.{◌≡◌};
ghost use Rattle.std.specs.Option.{ok_or};
ghost use Rattle.events.specs.Records.{kind_of, unknown};

/// No kind of event record has this number.
#[derive(Clone, Copy, Debug, PartialEq, Eq)]
pub struct UnknownKind;

#[derive(Clone, Copy, Debug, PartialEq, Eq)]
pub enum EventKind {
    Tick,
    Call,
    Load,
    Store,
    Fault,
    Line,
    SystemFault,
}

impl TryFrom<u16> for EventKind {
    type Error = UnknownKind;

    ghost try_from_gives = { λ number r. r ≡ ok_or (kind_of number) unknown };

    fn try_from(number: u16) -> Result<EventKind, UnknownKind> {
        match number {
            32 => Ok(EventKind::Tick),
            33 => Ok(EventKind::Call),
            34 => Ok(EventKind::Load),
            35 => Ok(EventKind::Store),
            36 => Ok(EventKind::Fault),
            37 => Ok(EventKind::Line),
            38 => Ok(EventKind::SystemFault),
            _ => Err(UnknownKind),
        }
    }
}
