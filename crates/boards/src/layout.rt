//! What a way to lay eight areas out in one memory is.
ghost use Rattle.std.specs.Prelude.{◌≡◌, ℕ, ◌<◌, List};
ghost use Rattle.board.specs.Areas.{Area};
ghost use Rattle.boards.specs.Places.{LayoutLaws};

/// Where the bytes of eight areas lie in a memory of N bytes.
pub trait Layout<const N: usize> {
    /// The areas that lie in a memory.
    ghost view: { Self → List ℕ → List Area };

    /// The size of each area.
    ghost sizes: { Self → ℕ → ℕ };

    /// Where each byte of each area lies.
    ghost places: { Self → ℕ → ℕ → ℕ };

    /// How many bytes of an area, from one on, lie one after another.
    ghost stretches: { Self → ℕ → ℕ → ℕ };

    /// Each byte lies within the memory, no two at one place, and those of a stretch one after another.
    ghost laws: { (layout : Self) → LayoutLaws N (view layout) (sizes layout) (places layout) (stretches layout) };

    /// The size of an area; one that is not there has no bytes.
    fn size(&self, i: usize) -> usize
        ensures { result ≡ sizes self.now i };

    /// Where a byte of an area lies.
    fn place(&self, i: usize, at: usize) -> usize
        requires { at < sizes self.now i }
        ensures { result ≡ places self.now i at };

    /// How many bytes of an area, from this one on, lie one after another, so that they can be reached at a stroke.
    fn stretch(&self, i: usize, at: usize) -> usize
        requires { at < sizes self.now i }
        ensures { result ≡ stretches self.now i at };
}
