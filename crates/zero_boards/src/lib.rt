//! The boards that a system starts on: areas of the vector's sizes, all zeros.
#![tactic(auto)]

ghost use Rattle.std.specs.Prelude.{◌≡◌, ◌<◌, ◌≤◌, true, replicate};
ghost use Rattle.tables.specs.Laws.{AreasSized};
ghost use Rattle.machine.specs.Step.{fits};
ghost use Rattle.boards.specs.Fences.{parts};
ghost use Rattle.boards.specs.Pages.{paged as areas_of_pages};
ghost use Rattle.zero_boards.specs.Layouts.{zeroed, size_at, sizes_of, fence_at, fences_of, pages_at, pages_of};

use boards::{Fence, Fenced, Paged, Pages};
use std::array;
use tables::Tables;

/// Room for eight areas of 1,024 bytes.
pub const ROOM: usize = 8192;

/// The size of an area; a partition that is not there has none.
fn size(tables: &Tables, i: usize) -> usize
    requires { i < 8 }
    ensures { result ≡ size_at tables.now i }
{
    if i < tables.partitions.count {
        usize::from(tables.partitions.rows[i].size)
    } else {
        0
    }
}

/// The sizes of the eight areas.
pub fn sizes(tables: &Tables) -> [usize; 8]
    ensures { result ≡ sizes_of tables.now }
{
    array::from_fn(|i| size(tables, i))
}

// The bounds of 8 are those of one area's number each.
/// Area i lies from 1,024 i on.
fn fence(i: usize, size: usize) -> Fence
    requires { i < 8 }
    ensures { result ≡ fence_at i size }
{
    Fence {
        base: 1024 * i,
        size,
    }
}

/// The fences of the eight areas.
pub fn fences(sizes: &[usize; 8]) -> [Fence; 8]
    ensures { result ≡ fences_of sizes.now }
{
    array::from_fn(|i| fence(i, sizes[i]))
}

/// The last area's pages come first in the memory.
fn area_pages(i: usize, size: usize) -> Pages
    requires { i < 8 }
    ensures { result ≡ pages_at i size }
{
    let first = 16 * (7 - i);
    Pages {
        numbers: array::from_fn(|k| (first + k) as u16),
        size,
    }
}

/// The pages of the eight areas.
pub fn pages(sizes: &[usize; 8]) -> [Pages; 8]
    ensures { result ≡ pages_of sizes.now }
{
    array::from_fn(|i| area_pages(i, sizes[i]))
}

// The two boards below stay two functions: a generic one would need a trait for one line each, and be no plainer. That there are at
// most eight partitions is a fact of every taken vector; the tables are plain values, so it is asked of both.

/// The fenced board: the areas lie one after another.
pub fn fenced(tables: &Tables) -> Fenced<ROOM>
    requires few { tables.now.partitions.count ≤ 8 }
    requires sized { AreasSized tables.now }
    ensures memory { result.memory ≡ replicate 8192 0 }
    ensures fences { result.layout.fences ≡ fences_of (sizes_of tables.now) }
    ensures areas { parts result.memory result.layout.fences ≡ zeroed tables.now }
    ensures fitting { fits tables.now (zeroed tables.now) ≡ true }
{
    Fenced::new([0; ROOM], fences(&sizes(tables)))
}

/// The paged board: the areas are made of pages.
pub fn paged(tables: &Tables) -> Paged<ROOM>
    requires few { tables.now.partitions.count ≤ 8 }
    requires sized { AreasSized tables.now }
    ensures memory { result.memory ≡ replicate 8192 0 }
    ensures pages { result.layout.areas ≡ pages_of (sizes_of tables.now) }
    ensures areas { areas_of_pages result.memory result.layout.areas ≡ zeroed tables.now }
    ensures fitting { fits tables.now (zeroed tables.now) ≡ true }
{
    Paged::new([0; ROOM], pages(&sizes(tables)))
}
