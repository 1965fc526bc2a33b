//! What a board means to the core: eight areas of bytes, and the ways to reach them.
#![tactic(auto)]

ghost use Rattle.std.specs.Prelude.{◌≡◌, List, length};
ghost use Rattle.board.specs.Areas.{Area, area, loaded, loaded_range, reached, stored, stored_range, wiped, wrote};

/// A memory of eight areas. An area that is not there (8 and up) is empty.
pub trait Board {
    /// The eight areas, each a list of bytes.
    ghost areas: { Self → List Area };

    /// There are always eight of them.
    ghost eight: { (b : Self) → length (areas b) ≡ 8 };

    /// The length of an area.
    fn size(&self, i: usize) -> usize
        ensures { result ≡ length (area (areas self.now) i) };

    /// The byte at a place of an area, or none outside.
    fn load(&self, i: usize, at: usize) -> Option<u8>
        ensures { result ≡ loaded (areas self.now) i at };

    /// Replaces the byte at a place of an area, and nothing else; outside, it says none.
    fn store(&mut self, i: usize, at: usize, byte: u8) -> Option<()>
        ensures answer { result ≡ wrote (areas self.old) i at }
        ensures after { areas self.new ≡ stored (areas self.old) i at byte };

    /// Fills an area with zeros.
    fn wipe(&mut self, i: usize)
        ensures { areas self.new ≡ wiped (areas self.old) i };

    /// Fills a buffer with the bytes from a place of an area on; where not all of them lie in the area, it says none
    /// and leaves the buffer.
    fn load_range(&self, i: usize, at: usize, into: &mut [u8]) -> Option<()>
        ensures answer { result ≡ reached (areas self.now) i at (length into.old) }
        ensures after { into.new ≡ loaded_range (areas self.now) i at into.old };

    /// Replaces the bytes from a place of an area on, and nothing else; where not all of them lie in the area, it says
    /// none and changes nothing.
    fn store_range(&mut self, i: usize, at: usize, bytes: &[u8]) -> Option<()>
        ensures answer { result ≡ reached (areas self.old) i at (length bytes.now) }
        ensures after { areas self.new ≡ stored_range (areas self.old) i at bytes.now };
}
