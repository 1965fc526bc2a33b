// Whole areas of a board. A board is asked by the number of an area, so the loop is over a range.
ghost use Rattle.std.specs.Prelude.{◌≡◌};
ghost use Rattle.machine.specs.State.{wiped_all};

use board::Board;

/// Fills the first n areas with zeros.
pub(crate) fn wipe_all<B: Board>(board: &mut B, n: usize)
    ensures { B.areas board.new ≡ wiped_all n (B.areas board.old) }
{
    for i in 0..n {
        board.wipe(i);
    }
}
