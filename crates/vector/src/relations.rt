//! What a record may have to do with those before it.
ghost use Rattle.std.specs.Prelude.{◌≡◌};
ghost use Rattle.tables.specs.Names.{clash, clashes, named};
ghost use Rattle.vector.specs.Joins.{admitted, is_full};
ghost use Rattle.vector.specs.Out.{out};
ghost use Rattle.vector.specs.Reasons.{relation_reason};

use crate::refusal::RelationFault;
use tables::{ChannelKind, Name, PartitionRow, Plan, Port, Slot, Tables};

/// Whether one of the partitions has this name.
pub(crate) fn is_named(rows: &[PartitionRow], name: &Name) -> bool
    ensures { result ≡ named rows.now name.now }
{
    rows.iter().any(|row| row.name == *name)
}

/// A slot may be the next one of a plan.
pub(crate) fn admit(plan: &Plan, slot: &Slot, at: usize) -> Result<(), RelationFault>
    ensures { out relation_reason (λ u. u) result ≡ admitted at plan.now slot.now }
{
    if plan.slots.count >= 16 {
        return Err(RelationFault::TooMany { at });
    }
    if plan.end() <= slot.start as u64 && slot.end() <= plan.frame as u64 {
        Ok(())
    } else {
        Err(RelationFault::Misplaced { at })
    }
}

/// Whether there is no room for one more port of the channel that was added last.
pub(crate) fn is_full(tables: &Tables) -> bool
    ensures { result ≡ is_full tables.now }
{
    let channel = tables.open_channel();
    tables.ports.count >= 32 || channel.kind == ChannelKind::Queuing && channel.ports >= 2
}

/// Whether the two are ports of one partition that may not both be: in one channel, or of one name.
fn is_clash(port: &Port, other: &Port) -> bool
    ensures { result ≡ clash port.now other.now }
{
    port.partition == other.partition && (port.channel == other.channel || port.name == other.name)
}

/// Whether the port may not be beside one of these.
pub(crate) fn is_clashing(rows: &[Port], port: &Port) -> bool
    ensures { result ≡ clashes rows.now port.now }
{
    rows.iter().any(|row| is_clash(port, row))
}
