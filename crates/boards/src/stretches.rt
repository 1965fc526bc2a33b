// Ranges of an area at a stroke: the stretches of the memory that they lie in, one after another.
ghost use Rattle.std.specs.Prelude.{◌≡◌, ◌+◌, ◌^◌, ◌<◌, ◌≤◌, length};
ghost use Rattle.board.specs.Areas.{area, part, patched_in, wiped};

use crate::layout::Layout;

/// Fills an area with zeros.
pub(crate) fn wipe<L: Layout<N>, const N: usize>(layout: &L, memory: &mut [u8], i: usize)
    requires { length memory.old ≡ N }
    ensures { L.view layout.now memory.new ≡ wiped (L.view layout.now memory.old) i }
{
    let size = layout.size(i);
    let mut at = 0;
    while at < size {
        let p = layout.place(i, at);
        let n = layout.stretch(i, at);
        memory[p..p + n].fill(0);
        at += n;
    }
}

/// Fills a buffer from an area.
pub(crate) fn load<L: Layout<N>, const N: usize>(
    layout: &L,
    memory: &[u8],
    i: usize,
    at: usize,
    into: &mut [u8],
)
    requires whole { length memory.now ≡ N }
    requires fits { at + length into.old < 2 ^ 64 }
    requires inside { at + length into.old ≤ L.sizes layout.now i }
    ensures { into.new ≡ part (area (L.view layout.now memory.now) i) at (length into.old) }
{
    if into.is_empty() {
        return;
    }
    if layout.stretch(i, at) < into.len() {
        load_stretches(layout, memory, i, at, into);
        return;
    }
    let p = layout.place(i, at);
    into.copy_from_slice(&memory[p..p + into.len()]);
}

// Fills a buffer from one stretch after another.
// Seldom run, only for a range that spans pages: not inlined, so that the callers of `load` stay short.
#[inline(never)]
fn load_stretches<L: Layout<N>, const N: usize>(
    layout: &L,
    memory: &[u8],
    i: usize,
    at: usize,
    into: &mut [u8],
)
    requires whole { length memory.now ≡ N }
    requires fits { at + length into.old < 2 ^ 64 }
    requires inside { at + length into.old ≤ L.sizes layout.now i }
    ensures { into.new ≡ part (area (L.view layout.now memory.now) i) at (length into.old) }
{
    let len = into.len();
    let mut done = 0;
    while done < len {
        let p = layout.place(i, at + done);
        let n = layout.stretch(i, at + done).min(len - done);
        into[done..done + n].copy_from_slice(&memory[p..p + n]);
        done += n;
    }
}

/// Lays bytes in an area.
pub(crate) fn store<L: Layout<N>, const N: usize>(
    layout: &L,
    memory: &mut [u8],
    i: usize,
    at: usize,
    bytes: &[u8],
)
    requires whole { length memory.old ≡ N }
    requires fits { at + length bytes.now < 2 ^ 64 }
    requires inside { at + length bytes.now ≤ L.sizes layout.now i }
    ensures { L.view layout.now memory.new ≡ patched_in (L.view layout.now memory.old) i at bytes.now }
{
    if bytes.is_empty() {
        return;
    }
    if layout.stretch(i, at) < bytes.len() {
        store_stretches(layout, memory, i, at, bytes);
        return;
    }
    let p = layout.place(i, at);
    memory[p..p + bytes.len()].copy_from_slice(bytes);
}

// Lays bytes in one stretch after another.
// Seldom run, only for a range that spans pages: not inlined, so that the callers of `store` stay short.
#[inline(never)]
fn store_stretches<L: Layout<N>, const N: usize>(
    layout: &L,
    memory: &mut [u8],
    i: usize,
    at: usize,
    bytes: &[u8],
)
    requires whole { length memory.old ≡ N }
    requires fits { at + length bytes.now < 2 ^ 64 }
    requires inside { at + length bytes.now ≤ L.sizes layout.now i }
    ensures { L.view layout.now memory.new ≡ patched_in (L.view layout.now memory.old) i at bytes.now }
{
    let len = bytes.len();
    let mut done = 0;
    while done < len {
        let p = layout.place(i, at + done);
        let n = layout.stretch(i, at + done).min(len - done);
        memory[p..p + n].copy_from_slice(&bytes[done..done + n]);
        done += n;
    }
}
