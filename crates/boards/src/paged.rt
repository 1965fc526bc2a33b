//! A board whose areas are made of pages of a memory of its own.
ghost use Rattle.std.specs.Prelude.{◌≡◌, true, length};
ghost use Rattle.std.specs.List.{list_all};
ghost use Rattle.boards.specs.Below.{all_below};
ghost use Rattle.boards.specs.Pages.{entry, used, differs, good_entry, fits, paged, sound_pages, taken_pages, paged_place, paged_size, paged_stretch, PagesLaid, paged_areas};

use crate::laid::Laid;
use crate::layout::Layout;

/// The pages that hold an area's bytes in turn, by number, and how many bytes it has.
#[derive(Clone, Copy, Debug, PartialEq, Eq)]
pub struct Pages {
    pub numbers: [u16; 16],
    pub size: usize,
}

// Page e % 16 of area e / 16.
fn page_of(table: &[Pages; 8], e: usize) -> u16
    ensures { result ≡ entry table.now e }
{
    table.get(e / 16).map_or(0, |pages| pages.numbers[e % 16])
}

// Does the area reach into that page?
fn is_used(table: &[Pages; 8], e: usize) -> bool
    ensures { result ≡ used table.now e }
{
    table
        .get(e / 16)
        .is_some_and(|pages| 64 * (e % 16) < pages.size)
}

fn is_new(table: &[Pages; 8], e: usize) -> bool
    ensures { result ≡ all_below (differs table.now e) e }
{
    (0..e).all(|d| !is_used(table, d) || page_of(table, e) != page_of(table, d))
}

fn is_good(table: &[Pages; 8], n: usize, e: usize) -> bool
    ensures { result ≡ good_entry table.now n e }
{
    !is_used(table, e) || (64 * usize::from(page_of(table, e)) + 64 <= n && is_new(table, e))
}

fn are_good(table: &[Pages; 8], n: usize) -> bool
    ensures { result ≡ all_below (good_entry table.now n) 128 }
{
    (0..128).all(|e| is_good(table, n, e))
}

fn all_fit(table: &[Pages; 8]) -> bool
    ensures { result ≡ list_all fits table.now }
{
    table.iter().all(|pages| pages.size <= 1024)
}

/// May this be the page table of a memory of n bytes?
fn is_sound(table: &[Pages; 8], n: usize) -> bool
    ensures { result ≡ sound_pages table.now n }
{
    are_good(table, n) && all_fit(table)
}

/// The pages of eight areas, sound in a memory of N bytes.
#[derive(Drop)]
pub struct PageTable<const N: usize> {
    areas: [Pages; 8],
    ghost eight: { length areas ≡ 8 },
    ghost sound: { sound_pages areas N ≡ true },
    ghost laws: { PagesLaid areas N },
}

impl<const N: usize> PageTable<N> {
    // Pages that are not sound become none: all areas are then empty.
    fn new(areas: [Pages; 8]) -> PageTable<N>
        ensures { result.areas ≡ taken_pages areas N }
    {
        if !is_sound(&areas, N) {
            let none = Pages {
                numbers: [0; 16],
                size: 0,
            };
            return PageTable { areas: [none; 8] };
        }
        PageTable { areas }
    }
}

impl<const N: usize> Layout<N> for PageTable<N> {
    ghost view = { λ layout memory. paged memory layout.areas };

    ghost sizes = { λ layout. paged_size layout.areas };

    ghost places = { λ layout. paged_place layout.areas };

    ghost stretches = { λ layout. paged_stretch layout.areas };

    ghost laws = { λ layout. layout.laws };

    fn size(&self, i: usize) -> usize {
        self.areas.get(i).map_or(0, |pages| pages.size)
    }

    fn place(&self, i: usize, at: usize) -> usize {
        64 * usize::from(self.areas[i].numbers[at / 64]) + at % 64
    }

    fn stretch(&self, i: usize, at: usize) -> usize {
        (64 - at % 64).min(self.areas[i].size - at)
    }
}

/// A board whose areas are made of pages of its memory.
pub type Paged<const N: usize> = Laid<PageTable<N>, N>;

impl<const N: usize> Laid<PageTable<N>, N> {
    /// An area's bytes are those of its pages in turn, as far as its size reaches; further pages are not looked at.
    /// A used page that is met twice or passes the memory's end, or a size above 1,024, leaves all eight areas empty.
    pub fn new(memory: [u8; N], areas: [Pages; 8]) -> Paged<N>
        ensures memory { result.memory ≡ memory.entry }
        ensures pages { result.layout.areas ≡ taken_pages areas N }
        ensures areas { paged result.memory result.layout.areas ≡ paged_areas memory.entry areas N }
    {
        Laid::with_layout(memory, PageTable::new(areas))
    }
}
