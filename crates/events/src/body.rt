// The fields of a record's body, for each kind: none where the body has not the kind's length.
ghost use Rattle.std.specs.Prelude.{◌≡◌, if◌then◌else◌, Some, None, length, ◌==◌};
ghost use Rattle.events.specs.Records.{args_of, byte_at, event_in};

use crate::kind::EventKind;
use machine::event::{Args, Event};

fn tick(body: &[u8]) -> Option<Event>
    ensures { result ≡ event_in (Some EventKind.Tick) body.now }
{
    let [t0, t1, t2, t3] = body else { return None };
    Some(Event::Tick {
        time: u32::from_le_bytes([*t0, *t1, *t2, *t3]),
    })
}

/// The five arguments of a call, one after another.
fn read_args(bytes: &[u8]) -> Option<Args>
    ensures { result ≡ (if length bytes.now == 20 then Some (args_of bytes.now) else None) }
{
    let ([a, b, c, d, e], []) = bytes.as_chunks::<4>() else {
        return None;
    };
    Some([
        u32::from_le_bytes(*a),
        u32::from_le_bytes(*b),
        u32::from_le_bytes(*c),
        u32::from_le_bytes(*d),
        u32::from_le_bytes(*e),
    ])
}

fn call(body: &[u8]) -> Option<Event>
    ensures { result ≡ event_in (Some EventKind.Call) body.now }
{
    let [partition, number, args @ ..] = body else {
        return None;
    };
    Some(Event::Call {
        partition: *partition,
        number: *number,
        args: read_args(args)?,
    })
}

fn load(body: &[u8]) -> Option<Event>
    ensures { result ≡ event_in (Some EventKind.Load) body.now }
{
    let [partition, o0, o1, o2, o3] = body else {
        return None;
    };
    Some(Event::Load {
        partition: *partition,
        offset: u32::from_le_bytes([*o0, *o1, *o2, *o3]),
    })
}

fn store(body: &[u8]) -> Option<Event>
    ensures { result ≡ event_in (Some EventKind.Store) body.now }
{
    let [partition, o0, o1, o2, o3, byte] = body else {
        return None;
    };
    Some(Event::Store {
        partition: *partition,
        byte: *byte,
        offset: u32::from_le_bytes([*o0, *o1, *o2, *o3]),
    })
}

fn fault(body: &[u8]) -> Option<Event>
    ensures { result ≡ event_in (Some EventKind.Fault) body.now }
{
    let [partition, event] = body else {
        return None;
    };
    Some(Event::Fault {
        partition: *partition,
        event: *event,
    })
}

/// The one byte of a body.
fn single(body: &[u8]) -> Option<u8>
    ensures { result ≡ (if length body.now == 1 then Some (byte_at body.now 0) else None) }
{
    let [only] = body else { return None };
    Some(*only)
}

/// The event that a body of this kind says.
pub(crate) fn read_body(kind: EventKind, body: &[u8]) -> Option<Event>
    ensures { result ≡ event_in (Some kind) body.now }
{
    // each kind has other fields and another reader; a table of readers would hide which
    match kind {
        EventKind::Tick => tick(body),
        EventKind::Call => call(body),
        EventKind::Load => load(body),
        EventKind::Store => store(body),
        EventKind::Fault => fault(body),
        EventKind::Line => Some(Event::Line {
            line: single(body)?,
        }),
        EventKind::SystemFault => Some(Event::SystemFault {
            event: single(body)?,
        }),
    }
}
