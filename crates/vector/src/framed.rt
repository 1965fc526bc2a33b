// The record at the front of a vector's bytes: of a known kind, and with a body that suits it.
ghost use Rattle.std.specs.Prelude.{◌≡◌};
ghost use Rattle.frame.specs.Frames.{framed_of};
ghost use Rattle.vector.specs.Out.{out};
ghost use Rattle.vector.specs.Reasons.{frame_reason};
ghost use Rattle.vector.specs.Frames.{framed};

use crate::kind::Kind;
use crate::refusal::FrameFault;
use frame::{Cut, front};

/// The record at the front, of a known kind and with a body that suits it.
pub(crate) fn split<'a>(bytes: &'a [u8], at: usize) -> Result<Cut<'a, Kind>, FrameFault>
    ensures { out frame_reason framed_of result ≡ framed at bytes.now }
{
    let Cut { kind, body, rest } = front(bytes).ok_or(FrameFault::PastEnd { at })?;
    let kind = Kind::try_from(kind).map_err(|_| FrameFault::UnknownKind { at })?;
    if !kind.takes_body(body.len()) {
        return Err(FrameFault::WrongLength { at });
    }
    Ok(Cut { kind, body, rest })
}
