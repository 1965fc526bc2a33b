// Bytes from an area, and back into it. A range is a board, an area's number, an offset and a length, and that it lies in the area
// is a fact of the board's bytes: a struct that keeps the fact would hold the loan of the board, once for reading and once for writing.
ghost use Rattle.std.specs.Prelude.{◌≡◌, ℕ, ◌+◌, ◌≤◌, length};
ghost use Rattle.tables.specs.Names.{padded};
ghost use Rattle.machine.specs.Letters.{letter_of};
ghost use Rattle.board.specs.Areas.{area, patched_in, ranged, part};

use board::Board;
use machine::clock::Time;
use machine::message::Message;
use tables::Name;

/// Whether a range lies in the area; the sum of two 32-bit numbers is taken as it is.
pub(crate) fn is_ranged<B: Board>(board: &B, i: usize, at: u32, n: u32) -> bool
    ensures { result ≡ ranged (area (B.areas board.now) i) at n }
{
    u64::from(at) + u64::from(n) <= board.size(i) as u64
}

/// Fills a buffer from an area.
fn load_into<B: Board>(board: &B, i: usize, at: usize, into: &mut [u8])
    requires inside { at + length into.old ≤ length (area (B.areas board.now) i) }
    ensures { into.new ≡ part (area (B.areas board.now) i) at (length into.old) }
{
    let _ = board.load_range(i, at, into);
}

/// Makes a message of the n bytes in a range. It is made where it lies: a result would be copied once more.
pub(crate) fn load_message<B: Board>(
    m: &mut Message,
    board: &B,
    i: usize,
    at: u32,
    n: u32,
    time: Time,
)
    requires short { n ≤ 64 }
    requires inside { at + n ≤ length (area (B.areas board.now) i) }
    ensures { letter_of m.new ≡ record { bytes = part (area (B.areas board.now) i) at n; time = time } }
{
    m.length = n as usize;
    m.time = time;
    load_into(board, i, at as usize, &mut m.bytes[0..n as usize]);
}

/// The name of n bytes in a range.
pub(crate) fn load_name<B: Board>(board: &B, i: usize, at: u32, n: u32) -> Name
    requires short { n ≤ 16 }
    requires inside { at + n ≤ length (area (B.areas board.now) i) }
    ensures { result ≡ padded (part (area (B.areas board.now) i) at n) }
{
    let mut bytes = [0; 16];
    load_into(board, i, at as usize, &mut bytes[0..n as usize]);
    Name {
        length: n as usize,
        bytes,
    }
}

/// Writes a message into an area.
pub(crate) fn store_message<B: Board>(m: &Message, board: &mut B, i: usize, at: u32)
    requires inside { at + length (letter_of m.now).bytes ≤ length (area (B.areas board.old) i) }
    ensures { B.areas board.new ≡ patched_in (B.areas board.old) i at (letter_of m.now).bytes }
{
    let _ = board.store_range(i, at as usize, &m.bytes[..m.size()]);
}
