//! A board that owns its memory, in any layout.
ghost use Rattle.std.specs.Prelude.{◌≡◌, ◌+◌, ◌^◌, ◌<◌, ◌≤◌, true, length};
ghost use Rattle.board.specs.Areas.{holds};
ghost use Rattle.boards.specs.Places.{found, Places};

use crate::layout::Layout;
use crate::stretches;
use board::Board;

/// A memory of N bytes, and where its eight areas lie.
#[derive(Drop)]
pub struct Laid<L, const N: usize> {
    memory: [u8; N],
    layout: L,
    ghost whole: { length memory ≡ N },
}

impl<L: Layout<N>, const N: usize> Laid<L, N> {
    /// The areas lie in the memory as the layout says.
    pub(crate) fn with_layout(memory: [u8; N], layout: L) -> Laid<L, N>
        ensures memory { result.memory ≡ memory.entry }
        ensures layout { result.layout ≡ layout }
    {
        Laid { memory, layout }
    }

    // Where a byte of an area lies in the memory, or none outside the area.
    fn find(&self, i: usize, at: usize) -> Option<usize>
        ensures is { result ≡ found (L.places self.now.layout) (L.sizes self.now.layout) i at }
        ensures lies { Places (L.view self.now.layout) self.now.memory i at result }
    {
        // a closure of `then` would not know that the area has this byte
        if at < self.layout.size(i) {
            Some(self.layout.place(i, at))
        } else {
            None
        }
    }

    // Whether n bytes from a place on lie in an area; the test goes by a difference, since a sum may be more than a
    // number holds.
    fn has(&self, i: usize, at: usize, n: usize) -> bool
        ensures is { result ≡ holds (L.view self.now.layout self.now.memory) i at n }
        ensures lies { result ≡ true → at + n ≤ L.sizes self.now.layout i }
        ensures fits { result ≡ true → at + n < 2 ^ 64 }
    {
        let size = self.layout.size(i);
        at <= size && n <= size - at
    }
}

impl<L: Layout<N>, const N: usize> Board for Laid<L, N> {
    ghost areas = { λ b. L.view b.layout b.memory };

    ghost eight = { λ b. (L.laws b.layout).eight b.memory };

    fn size(&self, i: usize) -> usize {
        self.layout.size(i)
    }

    fn load(&self, i: usize, at: usize) -> Option<u8> {
        let p = self.find(i, at)?;
        Some(self.memory[p])
    }

    fn store(&mut self, i: usize, at: usize, byte: u8) -> Option<()> {
        let p = self.find(i, at)?;
        self.memory[p] = byte;
        Some(())
    }

    fn wipe(&mut self, i: usize) {
        stretches::wipe(&self.layout, &mut self.memory, i);
    }

    fn load_range(&self, i: usize, at: usize, into: &mut [u8]) -> Option<()> {
        if !self.has(i, at, into.len()) {
            return None;
        }
        stretches::load(&self.layout, &self.memory, i, at, into);
        Some(())
    }

    fn store_range(&mut self, i: usize, at: usize, bytes: &[u8]) -> Option<()> {
        if !self.has(i, at, bytes.len()) {
            return None;
        }
        stretches::store(&self.layout, &mut self.memory, i, at, bytes);
        Some(())
    }
}
