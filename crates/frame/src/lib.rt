//! The cut of one record off a sequence of bytes: two bytes of length, two of kind, and the body.
#![tactic(auto)]

ghost use Rattle.std.specs.Prelude.{◌≡◌};
ghost use Rattle.std.specs.Option.{option_map};
ghost use Rattle.frame.specs.Frames.{framed_of, front};

/// A record's kind and body, and the bytes after it.
#[derive(Clone, Copy)]
pub struct Cut<'a, K> {
    pub kind: K,
    pub body: &'a [u8],
    pub rest: &'a [u8],
}

/// The record at the front, whatever the number of its kind; none where it passes the end.
pub fn front<'a>(bytes: &'a [u8]) -> Option<Cut<'a, u16>>
    ensures { option_map framed_of result ≡ front bytes.now }
{
    let [l0, l1, k0, k1, after @ ..] = bytes else {
        return None;
    };
    let length = u16::from_le_bytes([*l0, *l1]) as usize;
    let kind = u16::from_le_bytes([*k0, *k1]);
    let (body, rest) = after.split_at_checked(length)?;
    Some(Cut { kind, body, rest })
}
