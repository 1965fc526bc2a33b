// An entry of the health monitor's log.
ghost use Rattle.std.specs.Prelude.{◌≡◌};
ghost use Rattle.machine.specs.Answers.{packed};
ghost use Rattle.machine.specs.Packing.{Below, Telling, Unpacks};

use crate::clock::Time;
pub use tables::SYSTEM;
use tables::{Action, Scope};

/// A fault event of a partition or of the system, and the action that was taken.
#[derive(Clone, Copy, Debug, PartialEq, Eq)]
pub struct Entry {
    pub action: Action,
    pub scope: Scope,
    pub event: u8,
    pub time: Time,
}

impl Entry {
    /// All but the time in one word: scope, event and action, a byte each.
    #[tactic(auto, using(crate::proofs::Packing::unpacks, crate::proofs::Packing::telling))]
    pub(crate) fn packed(&self) -> u32
        ensures is { result ≡ packed self.now }
        ensures told { Below self.now.scope → Unpacks self.now result }
        ensures telling { Telling }
    {
        u32::from(u8::from(self.scope))
            + 256 * u32::from(self.event)
            + 65536 * u32::from(u8::from(self.action))
    }
}
