// The bodies of the records, field by field from the left.
ghost use Rattle.std.specs.Prelude.{◌≡◌, ◌+◌, ◌^◌, ◌<◌, ◌≤◌, true, length, drop};
ghost use Rattle.vector.specs.Out.{out};
ghost use Rattle.vector.specs.Reading.{heard};
ghost use Rattle.vector.specs.Reasons.{field_reason, reason};
ghost use Rattle.vector.specs.Rooms.{Room};
ghost use Rattle.vector.specs.Frames.{suits};
ghost use Rattle.vector.specs.Bodies.{name_of, next_direction, said_of, header_of, partition_of, plan_of, slot_of, channel_of, port_of, ipvi_of, line_of, action_said, said_by};

use crate::fields::{
    action_by, deepest, flag_by, in_range, is_direction, is_event, is_mask, is_there, known,
    scope_by,
};
use crate::kind::Kind;
use crate::record::{NameIn, Record};
use crate::refusal::{FieldFault, Refusal};
use crate::sofar::Sofar;
use tables::{ChannelKind, Class, Direction, Tables};

// A `NameIn` has a part of a body: whether its place is small is nothing that a reader of records need know. How many partitions there
// are goes beside the body, since the header says it. The lengths asked below are each kind's own.
/// The bytes of a record's body, and the place of the first one.
#[derive(Clone, Copy)]
struct Body<'a> {
    bytes: &'a [u8],
    at: usize,
    ghost small: { at + length bytes.now < 2 ^ 64 },
}

impl<'a> Body<'a> {
    /// The name that goes from byte `n` to the end of the body.
    fn name_from(self, n: usize) -> NameIn<'a>
        requires { n ≤ length self.bytes.now }
        ensures { name_of result ≡ record { at = self.entry.at + n; bytes = drop n self.entry.bytes.now } }
    {
        NameIn {
            bytes: &self.bytes[n..],
            at: self.at + n,
        }
    }
}

fn header<'a>(body: Body<'a>) -> Result<Record<'a>, FieldFault>
    requires { length body.bytes.now ≡ 2 }
    ensures { out field_reason said_of result ≡ header_of body.entry.at body.entry.bytes.now }
{
    let [partitions, plans] = body.bytes else {
        unreachable()
    };
    in_range(*partitions as u32, 1, 8, body.at)?;
    in_range(*plans as u32, 1, 4, body.at + 1)?;
    Ok(Record::Header {
        partitions: *partitions,
        plans: *plans,
    })
}

fn partition<'a>(body: Body<'a>) -> Result<Record<'a>, FieldFault>
    requires { 4 ≤ length body.bytes.now }
    ensures { out field_reason said_of result ≡ partition_of body.entry.at body.entry.bytes.now }
{
    let [class, s0, s1, ..] = body.bytes else {
        unreachable()
    };
    let class = known(Class::try_from(*class), body.at)?;
    let size = u16::from_le_bytes([*s0, *s1]);
    in_range(size as u32, 1, 1024, body.at + 1)?;
    let name = body.name_from(3);
    Ok(Record::Partition { class, size, name })
}

fn plan<'a>(body: Body<'a>) -> Result<Record<'a>, FieldFault>
    requires { length body.bytes.now ≡ 4 }
    ensures { out field_reason said_of result ≡ plan_of body.entry.at body.entry.bytes.now }
{
    let [f0, f1, f2, f3] = body.bytes else {
        unreachable()
    };
    let frame = u32::from_le_bytes([*f0, *f1, *f2, *f3]);
    in_range(frame, 1, 1_000_000, body.at)?;
    Ok(Record::Plan { frame })
}

fn slot<'a>(body: Body<'a>, partitions: u8) -> Result<Record<'a>, FieldFault>
    requires { length body.bytes.now ≡ 9 }
    ensures { out field_reason said_of result ≡ slot_of partitions body.entry.at body.entry.bytes.now }
{
    let [partition, s0, s1, s2, s3, d0, d1, d2, d3] = body.bytes else {
        unreachable()
    };
    is_there(*partition, partitions, body.at)?;
    let start = u32::from_le_bytes([*s0, *s1, *s2, *s3]);
    in_range(start, 0, 999_999, body.at + 1)?;
    let duration = u32::from_le_bytes([*d0, *d1, *d2, *d3]);
    in_range(duration, 1, 1_000_000, body.at + 5)?;
    Ok(Record::Slot {
        partition: *partition,
        start,
        duration,
    })
}

fn channel<'a>(body: Body<'a>) -> Result<Record<'a>, FieldFault>
    requires { length body.bytes.now ≡ 4 }
    ensures { out field_reason said_of result ≡ channel_of body.entry.at body.entry.bytes.now }
{
    let [kind, l0, l1, depth] = body.bytes else {
        unreachable()
    };
    let kind = known(ChannelKind::try_from(*kind), body.at)?;
    let longest = u16::from_le_bytes([*l0, *l1]);
    in_range(longest as u32, 1, 64, body.at + 1)?;
    in_range(*depth as u32, 1, deepest(kind), body.at + 3)?;
    Ok(Record::Channel {
        kind,
        longest,
        depth: *depth,
    })
}

/// The direction of the next port: a channel's first is its source, the others are destinations.
fn next_direction(tables: &Tables) -> Direction
    ensures { result ≡ next_direction tables.now }
{
    if tables.open_channel().ports == 0 {
        Direction::Source
    } else {
        Direction::Destination
    }
}

fn port<'a>(body: Body<'a>, partitions: u8, direction: Direction) -> Result<Record<'a>, FieldFault>
    requires { 3 ≤ length body.bytes.now }
    ensures { out field_reason said_of result ≡ port_of partitions direction body.entry.at body.entry.bytes.now }
{
    let [partition, number, ..] = body.bytes else {
        unreachable()
    };
    is_there(*partition, partitions, body.at)?;
    is_direction(*number, direction, body.at + 1)?;
    Ok(Record::Port {
        partition: *partition,
        direction,
        name: body.name_from(2),
    })
}

fn ipvi<'a>(body: Body<'a>, partitions: u8) -> Result<Record<'a>, FieldFault>
    requires three { length body.bytes.now ≡ 3 }
    requires few { partitions ≤ 8 }
    ensures { out field_reason said_of result ≡ ipvi_of partitions body.entry.at body.entry.bytes.now }
{
    let [number, source, mask] = body.bytes else {
        unreachable()
    };
    in_range(*number as u32, 0, 7, body.at)?;
    is_there(*source, partitions, body.at + 1)?;
    is_mask(*mask, *source, partitions, body.at + 2)?;
    Ok(Record::Ipvi {
        number: *number,
        source: *source,
        mask: *mask,
    })
}

fn line<'a>(body: Body<'a>, partitions: u8) -> Result<Record<'a>, FieldFault>
    requires { length body.bytes.now ≡ 2 }
    ensures { out field_reason said_of result ≡ line_of partitions body.entry.at body.entry.bytes.now }
{
    let [line, partition] = body.bytes else {
        unreachable()
    };
    in_range(*line as u32, 0, 15, body.at)?;
    is_there(*partition, partitions, body.at + 1)?;
    Ok(Record::Line {
        line: *line,
        partition: *partition,
    })
}

fn action<'a>(body: Body<'a>, partitions: u8) -> Result<Record<'a>, FieldFault>
    requires { length body.bytes.now ≡ 4 }
    ensures { out field_reason said_of result ≡ action_said partitions body.entry.at body.entry.bytes.now }
{
    let [scope, event, action, log] = body.bytes else {
        unreachable()
    };
    let scope = scope_by(*scope, partitions, body.at)?;
    is_event(*event, scope, body.at + 1)?;
    let action = action_by(*action, scope, body.at + 2)?;
    let log = flag_by(*log, body.at + 3)?;
    Ok(Record::Action {
        scope,
        event: *event,
        action,
        log,
    })
}

/// What a body of this kind says, after what the records so far have said.
fn read_body<'a>(kind: Kind, body: Body<'a>, sofar: &Sofar) -> Result<Record<'a>, FieldFault>
    requires suited { suits kind (length body.bytes.now) ≡ true }
    requires few { sofar.now.partitions ≤ 8 }
    ensures { out field_reason said_of result ≡ said_by kind sofar.now body.entry.at body.entry.bytes.now }
{
    // each kind has other fields and another reader; a table of readers would hide which
    match kind {
        Kind::Header => header(body),
        Kind::Partition => partition(body),
        Kind::Plan => plan(body),
        Kind::Slot => slot(body, sofar.partitions),
        Kind::Channel => channel(body),
        Kind::Port => port(body, sofar.partitions, next_direction(&sofar.tables)),
        Kind::Ipvi => ipvi(body, sofar.partitions),
        Kind::Line => line(body, sofar.partitions),
        Kind::Action => action(body, sofar.partitions),
    }
}

/// What a record of a known kind and the right length says, if it is in turn and its fields are in range.
pub(crate) fn hear<'a>(
    kind: Kind,
    body: &'a [u8],
    sofar: &Sofar,
    at: usize,
) -> Result<Record<'a>, Refusal>
    requires room { Room sofar.now }
    requires suited { suits kind (length body.now) ≡ true }
    requires small { at + 4 + length body.now < 2 ^ 64 }
    ensures { out reason said_of result ≡ heard at sofar.now kind body.now }
{
    sofar.turn(kind, at)?;
    let body = Body {
        bytes: body,
        at: at + 4,
    };
    Ok(read_body(kind, body, sofar)?)
}
