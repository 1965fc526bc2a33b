//! A fault event of a scope that has it.
ghost use Rattle.tables.specs.Events.{InScope, InScope-prop};

use crate::Scope;

/// A scope's event: 0 to 7 of a partition below 8, or 8 to 11 of the system.
#[derive(Clone, Copy)]
pub struct Event {
    pub scope: Scope,
    pub number: u8,
    ghost in_scope: { InScope scope number } by { InScope-prop scope number },
}
