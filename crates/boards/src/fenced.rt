//! A board whose areas are fenced parts of a memory of its own.
ghost use Rattle.std.specs.Prelude.{◌≡◌, ◌+◌, ◌<◌, true, length, nat_le};
ghost use Rattle.boards.specs.Below.{all_below};
ghost use Rattle.boards.specs.Fences.{within, apart, apart_at, parts, sound_fences, taken_fences, fence_size, fence_place, fence_stretch, FencesLaid, fenced_areas};

use crate::laid::Laid;
use crate::layout::Layout;

/// The `size` bytes of a memory from `base` on.
#[derive(Clone, Copy, Debug, PartialEq, Eq)]
pub struct Fence {
    pub base: usize,
    pub size: usize,
}

// The tests go by differences: base + size may be more than a number holds.
impl Fence {
    fn lies_within(self, n: usize) -> bool
        ensures { result ≡ within n self }
    {
        self.size <= 1024 && (self.size == 0 || (self.base <= n && self.size <= n - self.base))
    }

    fn ends_before(self, other: Fence) -> bool
        ensures { result ≡ nat_le (self.base + self.size) other.base }
    {
        self.base <= other.base && self.size <= other.base - self.base
    }

    fn is_apart_from(self, other: Fence) -> bool
        ensures { result ≡ apart self other }
    {
        self.size == 0 || other.size == 0 || self.ends_before(other) || other.ends_before(self)
    }
}

fn is_apart_from_earlier(fences: &[Fence; 8], i: usize) -> bool
    requires { i < 8 }
    ensures { result ≡ all_below (apart_at fences.now i) i }
{
    (0..i).all(|j| fences[i].is_apart_from(fences[j]))
}

/// May these be the fences of a memory of n bytes?
fn are_sound(fences: &[Fence; 8], n: usize) -> bool
    ensures { result ≡ sound_fences fences.now n }
{
    (0..8).all(|i| fences[i].lies_within(n) && is_apart_from_earlier(fences, i))
}

/// The fences of eight areas, sound in a memory of N bytes.
#[derive(Drop)]
pub struct Fences<const N: usize> {
    fences: [Fence; 8],
    ghost eight: { length fences ≡ 8 },
    ghost sound: { sound_fences fences N ≡ true },
    ghost laws: { FencesLaid fences N },
}

impl<const N: usize> Fences<N> {
    // Fences that are not sound become eight empty ones.
    fn new(fences: [Fence; 8]) -> Fences<N>
        ensures { result.fences ≡ taken_fences fences N }
    {
        if !are_sound(&fences, N) {
            return Fences {
                fences: [Fence { base: 0, size: 0 }; 8],
            };
        }
        Fences { fences }
    }
}

impl<const N: usize> Layout<N> for Fences<N> {
    ghost view = { λ layout memory. parts memory layout.fences };

    ghost sizes = { λ layout. fence_size layout.fences };

    ghost places = { λ layout. fence_place layout.fences };

    ghost stretches = { λ layout. fence_stretch layout.fences };

    ghost laws = { λ layout. layout.laws };

    fn size(&self, i: usize) -> usize {
        self.fences.get(i).map_or(0, |fence| fence.size)
    }

    fn place(&self, i: usize, at: usize) -> usize {
        self.fences[i].base + at
    }

    fn stretch(&self, i: usize, at: usize) -> usize {
        self.fences[i].size - at
    }
}

/// A board whose areas are the parts of its memory that fences name.
pub type Fenced<const N: usize> = Laid<Fences<N>, N>;

impl<const N: usize> Laid<Fences<N>, N> {
    /// The areas are the parts of the memory that the fences name. Fences that overlap, are larger than 1,024 bytes
    /// or pass the memory's end leave all eight areas empty. A fence of no bytes may have any base.
    pub fn new(memory: [u8; N], fences: [Fence; 8]) -> Fenced<N>
        ensures memory { result.memory ≡ memory.entry }
        ensures fences { result.layout.fences ≡ taken_fences fences N }
        ensures areas { parts result.memory result.layout.fences ≡ fenced_areas memory.entry fences N }
    {
        Laid::with_layout(memory, Fences::new(fences))
    }
}
