// A message as a channel's cell holds it.
ghost use Rattle.std.specs.Prelude.{◌≡◌, ◌≤◌, length};
ghost use Rattle.machine.specs.Letters.{letter_of, blank};

use crate::clock::Time;

/// The longest message that any channel takes.
pub const LONGEST: usize = 64;

/// A message of `length` bytes, and when it was sent; the bytes past its length say nothing. The buffer keeps its length
/// beside it, since a cell is fixed memory that is copied: no heap.
#[derive(Clone, Copy, Debug, PartialEq, Eq)]
pub struct Message {
    pub bytes: [u8; 64],
    pub length: usize,
    pub time: Time,
}

impl Message {
    /// An empty cell.
    pub fn blank() -> Message
        ensures { result ≡ blank }
    {
        Message {
            bytes: [0; LONGEST],
            length: 0,
            time: 0,
        }
    }

    /// How many bytes it has.
    pub fn size(&self) -> usize
        ensures is { result ≡ length (letter_of self.now).bytes }
        ensures short { result ≤ 64 }
    {
        self.length.min(LONGEST)
    }
}
