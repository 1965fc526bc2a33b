//! What the health monitor does at a fault event, and whose event it is.
ghost use Rattle.std.specs.Prelude.{◌≡◌};
ghost use Rattle.std.specs.Result.{result_ok};
ghost use Rattle.tables.specs.Blank.{defaults, system_defaults};
ghost use Rattle.tables.specs.Numbers.{action_by, action_number, scope_number};

use crate::UnknownNumber;

/// What the health monitor may do at a fault.
#[derive(Clone, Copy, Debug, PartialEq, Eq)]
pub enum Action {
    Ignore,
    Signal,
    Suspend,
    Halt,
    WarmReset,
    ColdReset,
}

impl TryFrom<u8> for Action {
    type Error = UnknownNumber;

    ghost try_from_gives = { λ number r. result_ok r ≡ action_by number };

    fn try_from(number: u8) -> Result<Action, UnknownNumber> {
        match number {
            0 => Ok(Action::Ignore),
            1 => Ok(Action::Signal),
            2 => Ok(Action::Suspend),
            3 => Ok(Action::Halt),
            4 => Ok(Action::WarmReset),
            5 => Ok(Action::ColdReset),
            _ => Err(UnknownNumber),
        }
    }
}

impl From<Action> for u8 {
    ghost from_gives = { λ action number. number ≡ action_number action };

    fn from(action: Action) -> u8 {
        match action {
            Action::Ignore => 0,
            Action::Signal => 1,
            Action::Suspend => 2,
            Action::Halt => 3,
            Action::WarmReset => 4,
            Action::ColdReset => 5,
        }
    }
}

/// What the health monitor does at one fault event, and whether it is logged.
#[derive(Clone, Copy, Debug, PartialEq, Eq)]
pub struct Response {
    pub action: Action,
    pub log: bool,
}

/// The responses to a partition's events 0 to 7 where the vector says nothing.
pub(crate) fn default_responses() -> [Response; 8]
    ensures { result ≡ defaults }
{
    let signal = Response {
        action: Action::Signal,
        log: false,
    };
    let signal_logged = Response {
        action: Action::Signal,
        log: true,
    };
    let suspend = Response {
        action: Action::Suspend,
        log: true,
    };
    let halt = Response {
        action: Action::Halt,
        log: true,
    };
    [
        signal,
        signal_logged,
        signal,
        signal_logged,
        signal,
        suspend,
        suspend,
        halt,
    ]
}

/// .. and to the system's events 8 to 11.
pub(crate) fn default_system_responses() -> [Response; 4]
    ensures { result ≡ system_defaults }
{
    let ignore = Response {
        action: Action::Ignore,
        log: true,
    };
    let reset = Response {
        action: Action::WarmReset,
        log: true,
    };
    [ignore, ignore, reset, ignore]
}

/// The number that stands for the system where a partition's could.
pub const SYSTEM: u8 = 255;

/// Whose fault events an action is for.
#[derive(Clone, Copy, Debug, PartialEq, Eq)]
pub enum Scope {
    Partition(u8),
    System,
}

impl From<Scope> for u8 {
    ghost from_gives = { λ scope number. number ≡ scope_number scope };

    fn from(scope: Scope) -> u8 {
        match scope {
            Scope::Partition(partition) => partition,
            Scope::System => SYSTEM,
        }
    }
}
