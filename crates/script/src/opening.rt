// The opening of a script: the 2-byte length of the vector, and the vector.
ghost use Rattle.script.specs.Reading.{Divides};

/// A script is at most this long.
const LONGEST: usize = 32_768;

/// The vector of a script, and the event records after it.
#[derive(Clone, Copy, Debug, PartialEq, Eq)]
pub struct Opening<'a> {
    pub vector: &'a [u8],
    pub records: &'a [u8],
}

/// Divides a script; None where it is too long or its vector is cut: both are malformed, and the caller names that error.
pub(crate) fn divide<'a>(bytes: &'a [u8]) -> Option<Opening<'a>>
    ensures { Divides bytes.now result }
{
    if bytes.len() > LONGEST {
        return None;
    }
    let [l0, l1, after @ ..] = bytes else {
        return None;
    };
    let length = usize::from(u16::from_le_bytes([*l0, *l1]));
    let (vector, records) = after.split_at_checked(length)?;
    Some(Opening { vector, records })
}
