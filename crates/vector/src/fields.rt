// Single fields of a record's body. Each is in its range, or refused at its first byte.
ghost use Rattle.std.specs.Prelude.{◌≡◌, ◌<◌, ◌≤◌};
ghost use Rattle.std.specs.Result.{result_ok};
ghost use Rattle.vector.specs.Out.{out};
ghost use Rattle.vector.specs.Reasons.{field_reason};
ghost use Rattle.vector.specs.Fields.{within, standing, existing, deepest, directed, masked, scope_of, event_of, action_of, flag_of};
ghost use Rattle.tables.specs.Bits.{has_bit};

use crate::refusal::FieldFault;
use tables::{Action, ChannelKind, Direction, SYSTEM, Scope, UnknownNumber};

/// The value that a number stands for; a number that stands for nothing is refused at its place.
pub(crate) fn known<T>(read: Result<T, UnknownNumber>, at: usize) -> Result<T, FieldFault>
    ensures { out field_reason (λ t. t) result ≡ standing at (result_ok read) }
{
    read.map_err(|_| FieldFault::OutOfRange { at })
}

pub(crate) fn in_range(value: u32, low: u32, high: u32, at: usize) -> Result<(), FieldFault>
    ensures { out field_reason (λ u. u) result ≡ within low high at value }
{
    if (low..=high).contains(&value) {
        Ok(())
    } else {
        Err(FieldFault::OutOfRange { at })
    }
}

/// A partition's number is below how many there are.
pub(crate) fn is_there(partition: u8, partitions: u8, at: usize) -> Result<(), FieldFault>
    ensures { out field_reason (λ u. u) result ≡ existing partitions at partition }
{
    if partition < partitions {
        Ok(())
    } else {
        Err(FieldFault::OutOfRange { at })
    }
}

/// The most messages that a channel of this kind may hold.
pub(crate) fn deepest(kind: ChannelKind) -> u32
    ensures { result ≡ deepest kind }
{
    match kind {
        ChannelKind::Sampling => 1,
        ChannelKind::Queuing => 8,
    }
}

/// The number is that of the direction that a port has to have.
pub(crate) fn is_direction(number: u8, direction: Direction, at: usize) -> Result<(), FieldFault>
    ensures { out field_reason (λ u. u) result ≡ directed direction at number }
{
    if number == u8::from(direction) {
        Ok(())
    } else {
        Err(FieldFault::OutOfRange { at })
    }
}

// The machine asks the same by another definition (`config::is_member`); theorems are worded with either, so each has its function.
fn has_bit(mask: u8, bit: u8) -> bool
    requires { bit < 8 }
    ensures { result ≡ has_bit mask bit }
{
    (mask >> bit) % 2 == 1
}

/// A mask names existing partitions, and not the source.
pub(crate) fn is_mask(mask: u8, source: u8, partitions: u8, at: usize) -> Result<(), FieldFault>
    requires source { source < partitions }
    requires few { partitions ≤ 8 }
    ensures { out field_reason (λ u. u) result ≡ masked partitions source at mask }
{
    if (mask as u16) >> partitions == 0 && !has_bit(mask, source) {
        Ok(())
    } else {
        Err(FieldFault::OutOfRange { at })
    }
}

/// The scope of a partition that is there, or 255 for the system.
pub(crate) fn scope_by(number: u8, partitions: u8, at: usize) -> Result<Scope, FieldFault>
    ensures { out field_reason (λ s. s) result ≡ scope_of partitions at number }
{
    // Which numbers there are hangs on the number of partitions, so a conversion alone cannot tell.
    if number < partitions {
        Ok(Scope::Partition(number))
    } else if number == SYSTEM {
        Ok(Scope::System)
    } else {
        Err(FieldFault::OutOfRange { at })
    }
}

/// The event is one of the scope's.
pub(crate) fn is_event(event: u8, scope: Scope, at: usize) -> Result<(), FieldFault>
    ensures { out field_reason (λ u. u) result ≡ event_of scope at event }
{
    match scope {
        Scope::Partition(_) => in_range(event as u32, 0, 7, at),
        Scope::System => in_range(event as u32, 8, 11, at),
    }
}

/// The action of this number, if the scope has it: the system cannot be signalled or suspended.
pub(crate) fn action_by(number: u8, scope: Scope, at: usize) -> Result<Action, FieldFault>
    ensures { out field_reason (λ a. a) result ≡ action_of scope at number }
{
    match (Action::try_from(number), scope) {
        (Err(_), _) | (Ok(Action::Signal | Action::Suspend), Scope::System) => {
            Err(FieldFault::OutOfRange { at })
        }
        (Ok(action), _) => Ok(action),
    }
}

pub(crate) fn flag_by(number: u8, at: usize) -> Result<bool, FieldFault>
    ensures { out field_reason (λ b. b) result ≡ flag_of at number }
{
    // Neither the trait nor `bool` is ours, so there can be no conversion by `TryFrom`.
    match number {
        0 => Ok(false),
        1 => Ok(true),
        _ => Err(FieldFault::OutOfRange { at }),
    }
}
